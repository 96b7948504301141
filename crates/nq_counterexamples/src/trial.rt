//! The values of a trial. They stand in a list, and are named by their places in it.
use crate::stuck::Stuck;
use std::alloc::Global;

/// How many steps a trial takes at most.
const STEPS: u32 = 2000;

/// How deep two values are compared, and a value is counted.
const DEPTH: u32 = 200;

/// A value, or a list of the parts of one.
#[derive(Clone, Copy, Debug, PartialEq, Eq)]
pub enum Value {
    /// T.
    True,
    /// F.
    False,
    /// A number.
    Number(u64),
    /// The object without parts of the shell at a place.
    Bottom(usize),
    /// An object of the shell at a place, with the list of its parts.
    Made(usize, usize),
    /// A part, and the list of the further ones.
    Part(usize, usize),
    /// The list of no parts.
    End,
}

/// The values that a trial has made, and the steps that it may still take.
#[derive(Drop)]
pub struct Trial {
    values: Vec<Value>,
    steps: u32,
}

impl Trial {
    /// A trial that has made no value.
    pub fn new(alloc: Global) -> Trial {
        Trial {
            values: Vec::new(alloc),
            steps: STEPS,
        }
    }

    /// Takes a step.
    pub fn step(&mut self) -> Result<(), Stuck> {
        if self.steps == 0 {
            return Err(Stuck::Over);
        }
        self.steps -= 1;
        Ok(())
    }

    /// Adds a value, and gives its place.
    pub fn add(&mut self, value: Value) -> Result<usize, Stuck> {
        let place = self.values.len();
        match self.values.push(value) {
            Ok(()) => Ok(place),
            Err(_) => Err(Stuck::Memory),
        }
    }

    /// The value at a place.
    pub fn value(&self, place: usize) -> Value {
        if place < self.values.len() {
            self.values[place]
        } else {
            Value::End
        }
    }

    /// Adds T or F.
    pub fn truth(&mut self, holds: bool) -> Result<usize, Stuck> {
        if holds {
            self.add(Value::True)
        } else {
            self.add(Value::False)
        }
    }
}

/// Are the values at two places the same?
pub fn are_same(trial: &Trial, a: usize, b: usize) -> Result<bool, Stuck> {
    are_same_within(trial, a, b, DEPTH)
}

/// The same, where they may be so deep.
fn are_same_within(trial: &Trial, a: usize, b: usize, depth: u32) -> Result<bool, Stuck> {
    if a == b {
        return Ok(true);
    }
    if depth == 0 {
        return Err(Stuck::Over);
    }
    match (trial.value(a), trial.value(b)) {
        (Value::Made(one, parts), Value::Made(two, others)) => {
            if one != two {
                return Ok(false);
            }
            are_same_within(trial, parts, others, depth - 1)
        }
        (Value::Part(first, rest), Value::Part(second, further)) => {
            if !are_same_within(trial, first, second, depth - 1)? {
                return Ok(false);
            }
            are_same_within(trial, rest, further, depth - 1)
        }
        (one, two) => Ok(one == two),
    }
}

/// The COUNT of the value at a place.
pub fn count_of(trial: &Trial, place: usize) -> Result<u64, Stuck> {
    count_within(trial, place, DEPTH)
}

/// The same, where it may be so deep.
fn count_within(trial: &Trial, place: usize, depth: u32) -> Result<u64, Stuck> {
    if depth == 0 {
        return Err(Stuck::Over);
    }
    match trial.value(place) {
        Value::Number(n) => Ok(n),
        Value::Made(_, parts) => {
            let count = count_within(trial, parts, depth - 1)?;
            Ok(count.saturating_add(1))
        }
        Value::Part(first, rest) => {
            let one = count_within(trial, first, depth - 1)?;
            let more = count_within(trial, rest, depth - 1)?;
            Ok(one.saturating_add(more))
        }
        Value::True => Ok(0),
        Value::False => Ok(0),
        Value::Bottom(_) => Ok(0),
        Value::End => Ok(0),
    }
}
