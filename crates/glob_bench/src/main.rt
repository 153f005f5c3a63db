//! Runs the matches that `bench/` measures. Each line of the input is a row of the table of work in
//! `mx_vectors`, from 0, and how many times it is matched; the answer is printed once.
#![tactic(auto)]

use anyhow::{Context, Result};
use mx_glob::{Glob, Scratch, word_literal};
use mx_json::{Folded, Meter};
use mx_vectors::{GLOB_WORK, GlobCall, GlobWork, Text};
use std::alloc::Global;

fn main(rt: HostRuntime) -> Result<()> {
    for line in rt.lines(rt.alloc()) {
        let (row, times) = request(line?.as_str()).context("a row and a number of times")?;
        let work = GLOB_WORK.get(row).context("no such row")?;
        let answer = run(rt.alloc(), work, times)?;
        println!(rt; "{}: {answer}", work.name)?;
    }
    Ok(())
}

/// The row and the number of times that a line asks for.
fn request(line: &str) -> Option<(usize, u32)> {
    let (row, times) = line.split_once(' ')?;
    Some((row.parse::<usize>().ok()?, times.parse::<u32>().ok()?))
}

/// Matches the row so many times, and gives the last answer; false where there is none.
fn run(alloc: Global, work: &GlobWork, times: u32) -> Result<bool> {
    let value = written(alloc, &work.value)?;
    run_on(alloc, work, times, &value)
}

fn written(alloc: Global, text: &Text) -> Result<Folded> {
    let text = text.write(alloc)?;
    Ok(Folded::of(alloc, text.as_str())?)
}

fn run_on(alloc: Global, work: &GlobWork, times: u32, value: &Folded) -> Result<bool> {
    match work.call {
        GlobCall::Literal => run_literal(alloc, &work.pattern, times, value),
        GlobCall::Whole => run_glob(alloc, &work.pattern, times, value, true),
        GlobCall::Word => run_glob(alloc, &work.pattern, times, value, false),
    }
}

fn run_literal(alloc: Global, name: &Text, times: u32, value: &Folded) -> Result<bool> {
    let name = written(alloc, name)?;
    let mut meter = Meter::new();
    let mut answer = false;
    for _ in 0..times {
        answer = word_literal(&name, value, &mut meter);
    }
    Ok(answer)
}

fn run_glob(
    alloc: Global,
    pattern: &Text,
    times: u32,
    value: &Folded,
    whole: bool,
) -> Result<bool> {
    let glob = glob_of(alloc, pattern)?;
    Ok(match_often(&glob, &mut Scratch::new(alloc)?, times, value, whole))
}

fn glob_of(alloc: Global, pattern: &Text) -> Result<Glob> {
    let pattern = pattern.write(alloc)?;
    Ok(Glob::read(alloc, pattern.as_str())?)
}

fn match_often(
    glob: &Glob,
    scratch: &mut Scratch,
    times: u32,
    value: &Folded,
    whole: bool,
) -> bool {
    let mut meter = Meter::new();
    let mut answer = false;
    for _ in 0..times {
        answer = if whole {
            glob.whole(value, scratch, &mut meter)
        } else {
            glob.word(value, scratch, &mut meter)
        };
    }
    answer
}
