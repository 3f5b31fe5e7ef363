//! Shares a text with a thread, takes slices of the text, and asks for a slice past its end.
#![tactic(auto)]

use arcstr::ArcStr;
use std::io::{self, Print};
use std::sync::Wait;
use std::thread;

fn main(rt: HostRuntime) -> io::Result<()> {
    let text = ArcStr::from_str(rt.alloc(), "name = Ada")?;
    let clone = text.clone(&rt);
    let counting = thread::spawn(&rt, move || clone.len())?;
    print_field(&rt, &text)?;
    match text.substr(&rt, 7..12) {
        Ok(part) => println!(rt; "{part}")?,
        Err(fault) => println!(rt; "no slice 7..12: {fault}")?,
    }
    println!(rt; "length: {}", counting.join(&rt))
}

/// Prints the name and the value of a field, and where the value lies.
fn print_field(rt: &(impl Print + Wait), field: &ArcStr) -> io::Result<()> {
    if let Some((name, value)) = field.substr_split_once(rt, '=') {
        let (name, value) = (name.substr_trim(rt), value.substr_trim(rt));
        println!(rt; "{name} is {value}, at {:?}", value.range())?;
    }
    Ok(())
}
