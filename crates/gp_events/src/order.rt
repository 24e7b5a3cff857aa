ghost use Rattle.std.specs.Prelude.{◌≡◌};
ghost use Rattle.gp_events.specs.Order.{name_of, frame_cmp, stack_cmp, sum_cmp};

use crate::sum::Sum;
use gp_isa::{Frame, Parts};
use std::cmp::Ordering;

// The name of a function of the program.
fn function_name(parts: &Parts, f: u32) -> &str
    ensures { result.now ≡ name_of parts.now f }
{
    match parts.functions.get(f as usize) {
        Some(function) => function.name.as_str(),
        None => "",
    }
}

fn compare_frames(parts: &Parts, a: Frame, b: Frame) -> Ordering
    ensures { result ≡ frame_cmp parts.now a b }
{
    if a.function == b.function {
        return a.line.cmp(&b.line);
    }
    match function_name(parts, a.function).cmp(function_name(parts, b.function)) {
        Ordering::Equal => a.line.cmp(&b.line),
        order => order,
    }
}

fn compare_stacks(parts: &Parts, a: &[Frame], b: &[Frame]) -> Ordering
    ensures { result ≡ stack_cmp parts.now a.now b.now }
{
    for (x, y) in a.iter().zip(b) {
        match compare_frames(parts, *x, *y) {
            Ordering::Equal => {}
            order => return order,
        }
    }
    a.len().cmp(&b.len())
}

/// The order of sums in a profile: falling delay, then stack.
pub(crate) fn compare(parts: &Parts, a: &Sum, b: &Sum) -> Ordering
    ensures { result ≡ sum_cmp parts.now a.now b.now }
{
    match b.delay.cmp(&a.delay) {
        Ordering::Equal => compare_stacks(parts, a.stack.as_slice(), b.stack.as_slice()),
        order => order,
    }
}
