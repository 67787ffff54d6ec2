//! `qw_speed NAME TURNS`: executes a loop of so many turns on the machine, and writes how many instructions it took. The same
//! loops stand as text in `data/NAME.wat`, for another engine.
#![tactic(auto)]

ghost use Rattle.std.specs.Prelude.{◌≡◌, ◌*◌, ◌≤◌, None, length};
ghost use Rattle.qw_linear.specs.Memory.{page};

mod loops;

use loops::module_of;
use qw_linear::linear::Linear;
use qw_machine::machine::Instance;
use qw_machine::stepped::Stepped;
use qw_valid::valid::validate;
use std::alloc::Global;
use std::process::ExitCode;
use std::rt::Env;
use std::{env, io};

/// How many instructions a run takes, or `None` where it ends otherwise than by returning, and at most so many.
fn instructions(instance: &mut Instance, memory: &mut Linear, most: u64) -> Option<u64>
    requires none_owed { instance.old.asked ≡ None }
    requires room { length memory.old.octets ≤ memory.old.reserved * page }
{
    let run = instance.run(memory, 0, most);
    match run.last {
        Stepped::Returned => Some(run.steps),
        _ => None,
    }
}

/// The same of the loop of a name, or `None` too where there is none, and for want of memory.
fn run(alloc: Global, name: &str, turns: u32) -> Option<u64> {
    let module = module_of(alloc, name, turns)?;
    let valid = validate(alloc, module).ok()?;
    let mut memory = Linear::new(alloc, 1).ok()?;
    memory.grow(1)?;
    let mut instance = Instance::new(alloc, valid, 0).ok()?;
    instructions(&mut instance, &mut memory, 100 * (u64::from(turns) + 1))
}

/// The words of the command line, without the program's own name.
fn words<R: Env + AllocGlobal>(rt: &R) -> io::Result<Vec<String>> {
    let mut words = Vec::new(rt.alloc());
    for word in env::args(rt)?.skip(1) {
        words.push(word)?;
    }
    Ok(words)
}

/// The loop that the words name, and its turns.
fn asked(words: &[String]) -> Option<(&str, u32)> {
    let [name, turns] = words else {
        return None;
    };
    Some((name.as_str(), turns.parse().ok()?))
}

fn main(rt: HostRuntime) -> io::Result<ExitCode> {
    let words = words(&rt)?;
    let Some((name, turns)) = asked(&words) else {
        eprintln!(rt; "usage: qw_speed sums|cells|calls|choices|branches TURNS")?;
        return Ok(ExitCode::from(2));
    };
    let Some(taken) = run(rt.alloc(), name, turns) else {
        eprintln!(rt; "{name}: not run")?;
        return Ok(ExitCode::from(1));
    };
    println!(rt; "{name}: {taken} instructions")?;
    Ok(ExitCode::SUCCESS)
}
