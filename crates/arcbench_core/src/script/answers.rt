//! The answer to a script of steps.
ghost use Rattle.std.specs.Prelude.{◌≡◌, ◌++◌, ◌∷◌, [], ◌↔◌, Ok, IfOk, IfErr, OnOk, string_bytes};
ghost use Rattle.arcstr_count.specs.Model.{start};
ghost use Rattle.arcbench_core.specs.Line.{newline, script_lines, step_of};
ghost use Rattle.arcbench_core.specs.Script.{reply_text, answer_by, answer_to, answer_under, answers, bad_limit, state_with};

use super::line::{first_line, limit_in, step_of};
use arcstr::count::Reply;
use arcstr_world::{RunFault, World};
use std::alloc::{AllocError, Allocator};

/// Returns the answer to a script: `bad limit` if its first line sets no limit, else a line for
/// each of the other lines, with the reply to its step or `bad`.
///
/// The call fails with `LimitTooLarge` exactly if the limit is above `RC_MAX`, and with `Memory`
/// only if an allocation fails. The time is linear in the length of the script.
///
/// ```
/// let answer = script::answer(rt.alloc(), b"limit 5\nmake\nlook 0\n")?;
/// assert_eq!(rt; answer.as_slice(), b"made 0\ncount 1\n".as_slice());
/// ```
pub fn answer<A: Allocator + Copy>(alloc: A, script: &[u8]) -> Result<Vec<u8, A>, RunFault>
    ensures ok { IfOk result (λ out. answer_to script.now ≡ Ok out.items) }
    ensures too_large { (result ≡ Err RunFault.LimitTooLarge)
        ↔ (answer_to script.now ≡ Err RunFault.LimitTooLarge) }
{
    if script.is_empty() {
        return bad_limit(alloc);
    }
    let (first, later) = first_line(script);
    match limit_in(first) {
        None => bad_limit(alloc),
        Some(limit) => answer_under(alloc, limit, later),
    }
}

/// Makes the answer to a script whose first line sets no limit.
fn bad_limit<A: Allocator>(alloc: A) -> Result<Vec<u8, A>, RunFault>
    ensures ok { IfOk result (λ out. out.items ≡ bad_limit) }
    ensures memory { IfErr result (λ fault. fault ≡ RunFault.Memory) }
{
    match String::from_str(alloc, "bad limit\n") {
        Ok(out) => Ok(out.into_bytes()),
        Err(AllocError) => Err(RunFault::Memory),
    }
}

/// Makes the answers to lines under a limit.
fn answer_under<A: Allocator + Copy>(
    alloc: A,
    limit: u64,
    later: &[u8],
) -> Result<Vec<u8, A>, RunFault>
    ensures ok { IfOk result (λ out. answer_under (Some limit) (script_lines later.now)
        ≡ Ok out.items) }
    ensures too_large { (result ≡ Err RunFault.LimitTooLarge)
        ↔ (answer_under (Some limit) (script_lines later.now) ≡ Err RunFault.LimitTooLarge) }
{
    let mut world = World::new(alloc, limit)?;
    let mut out = String::new(alloc);
    answer_lines(&mut world, &mut out, later)?;
    Ok(out.into_bytes())
}

/// Appends the answer to each line of the bytes, by a world that has taken no step.
fn answer_lines<A: Allocator + Copy>(
    world: &mut World<A>,
    out: &mut String<A>,
    bytes: &[u8],
) -> Result<(), RunFault>
    requires { world.old.state ≡ start }
    ensures text { OnOk result (string_bytes out.new
        ≡ string_bytes out.old ++ answers world.old.limit (script_lines bytes.now)) }
    ensures memory { IfErr result (λ fault. fault ≡ RunFault.Memory) }
{
    let mut rest = bytes;
    while !rest.is_empty() {
        let (line, later) = first_line(rest);
        answer_line(world, out, line)?;
        rest = later;
    }
    Ok(())
}

/// Appends the answer to a line, and takes its step.
fn answer_line<A: Allocator + Copy>(
    world: &mut World<A>,
    out: &mut String<A>,
    line: &[u8],
) -> Result<(), RunFault>
    ensures text { OnOk result (string_bytes out.new
        ≡ string_bytes out.old ++ (answer_by world.old.limit world.old.state (step_of line.now) ++ newline ∷ [])) }
    ensures state { OnOk result (world.new.state
        ≡ state_with world.old.limit world.old.state (step_of line.now)) }
    ensures limit { world.new.limit ≡ world.old.limit }
    ensures memory { IfErr result (λ fault. fault ≡ RunFault.Memory) }
{
    let pushed = match step_of(line) {
        None => out.push_str("bad"),
        Some(step) => push_reply(out, world.step(step)?),
    };
    if pushed.is_err() || out.push('\n').is_err() {
        return Err(RunFault::Memory);
    }
    Ok(())
}

/// Appends the text of a reply, without the end of its line.
fn push_reply<A: Allocator>(out: &mut String<A>, reply: Reply) -> Result<(), AllocError>
    ensures { OnOk result (string_bytes out.new ≡ string_bytes out.old ++ reply_text reply) }
{
    match reply {
        Reply::Made(handle) => write!(out, "made {handle}"),
        Reply::Count(count) => write!(out, "count {count}"),
        Reply::Static => write!(out, "static"),
        Reply::Handle(handle) => write!(out, "handle {handle}"),
        Reply::Looked => write!(out, "looked"),
        Reply::Ended => write!(out, "ended"),
        Reply::Left => write!(out, "left"),
        Reply::Owes => write!(out, "owes"),
        Reply::Given => write!(out, "given"),
        Reply::Marked => write!(out, "marked"),
        Reply::Raw => write!(out, "raw"),
        Reply::Unraw => write!(out, "unraw"),
        Reply::Refused(fault) => {
            let number = fault.number();
            write!(out, "refused {number} {fault}")
        }
    }
}
