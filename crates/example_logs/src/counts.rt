//! How often each path of a log was asked for.
ghost use Rattle.std.specs.Prelude.{IfSome};
ghost use Rattle.arcstr_range.specs.View.{IsFoundAt};

use anyhow::Result;
use arcstr::view::StrView;
use arcstr::{ArcStr, Substr};
use regex::{Matcher, Regex};
use std::alloc::{AllocError, Global};
use std::collections::HashMap;
use std::hash::RandomState;
use std::random::RandomSource;
use std::sync::Wait;
use thiserror::Error;

/// A request: the time, the method, the path and the status. Group 1 is the path.
const REQUEST: &str = r"^\S+ [A-Z]+ (/\S*) \d{3}$";

/// The number of lines between two lines of progress.
const PROGRESS: usize = 100_000;

/// A line that is no request, by its number from 1 and the byte offset at which it starts.
#[derive(Debug, Drop, Error)]
#[error("line {line}, byte {start}: no request")]
pub struct Fault {
    pub line: usize,
    pub start: usize,
}

/// The number of requests for each path, and the lines that are no requests. Each key is a slice,
/// which keeps the whole log alive. Strangers pick the paths, so the map hashes by a random seed:
/// they cannot find paths that collide.
#[derive(Drop)]
pub struct Counts {
    by_path: HashMap<Substr, u64, RandomState>,
    pub faults: Vec<Fault>,
}

impl Counts {
    /// Counts the requests of a log. For a large log, prints the progress to standard error.
    pub fn read<R: Wait + Eprint + RandomSource>(
        rt: &R,
        alloc: Global,
        log: &ArcStr,
    ) -> Result<Counts> {
        let request = Regex::new(alloc, REQUEST)?;
        let counts = Counts {
            by_path: HashMap::with_hasher(alloc, RandomState::new(rt)?),
            faults: Vec::new(alloc),
        };
        counts.matched(rt, log, &mut request.matcher(alloc)?)
    }

    /// Adds the requests that the matcher finds. The check proves the loop in a function of its
    /// own, with no `?` before it.
    fn matched(
        mut self,
        rt: &(impl Wait + Eprint),
        log: &ArcStr,
        matcher: &mut Matcher<'_>,
    ) -> Result<Counts> {
        for (before, line) in log.view().lines().enumerate() {
            let number = before + 1;
            match path_of(matcher, log, &line) {
                Some(path) => self.add(rt, log, path)?,
                None => self.faults.push(Fault {
                    line: number,
                    start: line.place(),
                })?,
            }
            if number % PROGRESS == 0 {
                eprintln!(rt; "{number} lines")?;
            }
        }
        Ok(self)
    }

    /// Counts a request for a path of the log. The map finds a path by its `&str`, so only a new
    /// path becomes a slice.
    fn add(&mut self, rt: &impl Wait, log: &ArcStr, path: StrView<'_>) -> Result<(), AllocError>
        requires { IsFoundAt log.now.text path.text path.place }
    {
        match self.by_path.get_mut(path.text()) {
            Some(count) => *count = count.saturating_add(1),
            None => {
                self.by_path.insert(log.substr_from(rt, path), 1)?;
            }
        }
        Ok(())
    }

    /// Returns the most frequent paths, at most `most` of them, with their counts, and paths with
    /// equal counts in their order. Each path is copied, so that it does not keep the log alive.
    pub fn most_frequent(&self, alloc: Global, most: usize) -> Result<Vec<(ArcStr, u64)>> {
        let mut counts: Vec<(&Substr, &u64)> = self.by_path.iter().collect(alloc)?;
        counts.sort_by(|one, other| other.1.cmp(one.1).then(one.0.cmp(other.0)))?;
        counts.truncate(most);
        let mut copies = Vec::new(alloc);
        for (path, count) in counts {
            copies.push((path.to_arc_str(alloc)?, *count))?;
        }
        Ok(copies)
    }
}

/// Returns the path of the request in a line of the log. The path is found in the log too, as
/// `substr_from` requires.
fn path_of<'a>(matcher: &mut Matcher<'_>, log: &ArcStr, line: &StrView<'a>) -> Option<StrView<'a>>
    requires { IsFoundAt log.now.text line.now.text line.now.place }
    ensures found { IfSome result (λ path. IsFoundAt log.now.text path.text path.place) }
{
    let path = matcher.captures(line.text())?.get(1)?;
    line.cut(path.range())
}
