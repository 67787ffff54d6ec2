//! Runs of modules step by step or several steps at a time, and what those come to.

ghost use Rattle.std.specs.Prelude.{◌≡◌, None, IfOk};
ghost use Rattle.qw_machine.specs.Instance.{asked_by};

use crate::frames::{ASKING, RAISING, called};
use crate::refusal::Refusal;
use qw_binary::decode::decode;
use qw_linear::linear::Linear;
use qw_machine::machine::Instance;
use qw_machine::stepped::Stepped;
use qw_valid::valid::validate;
use std::alloc::Global;

/// Where the value of a body is stored: the argument of its `run`.
const PLACE: u32 = 64;

/// A call of the module that octets spell.
pub fn call_of(alloc: Global, octets: &[u8], argument: u32) -> Result<Instance, Refusal>
    ensures { IfOk result (λ instance. instance.asked ≡ None) }
{
    let valid = validate(alloc, decode(alloc, octets)?)?;
    Ok(Instance::new(alloc, valid, argument)?)
}

/// A memory of one page of two.
pub fn one_page(alloc: Global) -> Result<Linear, Refusal> {
    let mut memory = Linear::new(alloc, 2).map_err(|_| Refusal::NotRow)?;
    memory.grow(1).ok_or(Refusal::NotRow)?;
    Ok(memory)
}

/// Steps until one doesn't answer `Ran`. Answers that, and how many steps were taken.
fn last_step(instance: &mut Instance, memory: &mut Linear) -> (Stepped, u64)
    requires { instance.old.asked ≡ None }
    ensures { instance.new.asked ≡ asked_by result.0 }
{
    let mut steps = 0u64;
    while steps < 100_000_000 {
        steps += 1;
        let spare = memory.reserved() - memory.size();
        let stepped = instance.step(memory, spare);
        if stepped != Stepped::Ran {
            return (stepped, steps);
        }
    }
    (Stepped::Ran, steps)
}

/// What stands around a body that leaves a value: the address, and the store.
fn storing(ty: &str) -> Result<(&'static [u8], &'static [u8]), Refusal> {
    match ty {
        "i32" => Ok((&[0x20, 0x00], &[0x36, 0x00, 0x00])),
        "i64" => Ok((&[0x20, 0x00], &[0x37, 0x00, 0x00])),
        _ => Err(Refusal::NotRow),
    }
}

/// The value of a type that a body stored.
fn stored(memory: &Linear, ty: &str) -> Result<u64, Refusal> {
    let at = u64::from(PLACE);
    let value = if ty == "i32" {
        memory.load32(at)
    } else {
        memory.load64(at)
    };
    value.ok_or(Refusal::NotRow)
}

/// What is left by the last body, or why there is nothing.
pub fn value_of(
    alloc: Global,
    memory: &mut Linear,
    ty: &str,
    bodies: &str,
) -> Result<String, Refusal> {
    let octets = called(alloc, RAISING, bodies, storing(ty)?)?;
    let mut instance = call_of(alloc, &octets, PLACE)?;
    let stepped = last_step(&mut instance, memory).0;
    shown(alloc, memory, ty, stepped)
}

/// The value that was stored before a run returned, or how it ended otherwise.
fn shown(alloc: Global, memory: &Linear, ty: &str, stepped: Stepped) -> Result<String, Refusal> {
    Ok(match stepped {
        Stepped::Returned => {
            let value = stored(memory, ty)?;
            format!(in alloc; "{value:#X}")?
        }
        Stepped::Trapped(why) => format!(in alloc; "{why:?}")?,
        other => format!(in alloc; "{other:?}")?,
    })
}

/// Answers a request to the host, which this came to: the pages are the memory's next ones, as far as it has a place for them.
fn give_next(instance: &mut Instance, memory: &mut Linear, stepped: Stepped) -> Stepped
    requires { instance.old.asked ≡ asked_by stepped }
    ensures { instance.new.asked ≡ None }
{
    if let Stepped::Asked { pages } = stepped {
        instance.give(memory.grow(pages));
    }
    instance.last()
}

/// Adds the next answer that isn't `Ran`, and how the run has ended after it.
fn add_answer(
    alloc: Global,
    instance: &mut Instance,
    memory: &mut Linear,
    text: &mut String,
) -> Result<(), Refusal>
    requires { instance.old.asked ≡ None }
    ensures { instance.new.asked ≡ None }
{
    let (stepped, steps) = last_step(instance, memory);
    let last = give_next(instance, memory, stepped);
    text.push_str(&format!(in alloc; "{stepped:?} after {steps}, {last:?}; ")?)?;
    Ok(())
}

/// The answers of a run that aren't `Ran`, up to the second one after its end, or to the eighth.
pub fn answers_of(
    alloc: Global,
    memory: &mut Linear,
    bodies: &str,
    argument: u32,
) -> Result<String, Refusal> {
    let octets = called(alloc, RAISING, bodies, (&[], &[]))?;
    let mut instance = call_of(alloc, &octets, argument)?;
    let mut text = String::new(alloc);
    for _ in 0..8 {
        let before = instance.last();
        add_answer(alloc, &mut instance, memory, &mut text)?;
        if before != Stepped::Ran {
            break;
        }
    }
    Ok(text)
}

/// Adds what `run` answers for at most so many steps, and how the run has ended after it.
fn add_run(
    alloc: Global,
    instance: &mut Instance,
    memory: &mut Linear,
    most: u32,
    text: &mut String,
) -> Result<(), Refusal>
    requires { instance.old.asked ≡ None }
    ensures { instance.new.asked ≡ None }
{
    let spare = memory.reserved() - memory.size();
    let run = instance.run(memory, spare, u64::from(most));
    let last = give_next(instance, memory, run.last);
    let (steps, stepped) = (run.steps, run.last);
    text.push_str(&format!(in alloc; "{stepped:?} after {steps}, {last:?}; ")?)?;
    Ok(())
}

/// The answers of a module that imports `pages`, at most so many steps at a time, up to the second one after its end, or to the eighth.
pub fn asks_of(
    alloc: Global,
    memory: &mut Linear,
    most: u32,
    bodies: &str,
    argument: u32,
) -> Result<String, Refusal> {
    let octets = called(alloc, ASKING, bodies, (&[], &[]))?;
    let mut instance = call_of(alloc, &octets, argument)?;
    let mut text = String::new(alloc);
    for _ in 0..8 {
        let before = instance.last();
        add_run(alloc, &mut instance, memory, most, &mut text)?;
        if before != Stepped::Ran {
            break;
        }
    }
    Ok(text)
}
