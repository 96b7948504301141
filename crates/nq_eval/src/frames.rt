//! What waits for a value, while a part of it is evaluated.
ghost use Rattle.std.specs.Prelude.{◌≡◌, ◌<◌, ◌≤◌};
ghost use Rattle.nq_eval.specs.Frames.{CanWait, child_at, child_of, turn_of};

use crate::found::{Found, Known};
use crate::gathered::{Values, ValuesCall};
use crate::openings::Opened;
use nq_bank::{Sym, TermId};
use nq_rule::Branches;

/// A term to be evaluated, how far openings may nest in it, and how many calls are left.
#[derive(Clone, Copy)]
pub struct Request {
    /// The term.
    pub term: TermId,
    /// How far openings may nest.
    pub nesting: u32,
    /// How many calls are left.
    pub calls: u32,
}

/// The arguments of a call, of which the first ones have values.
#[derive(Drop)]
pub struct Gathering {
    /// The function.
    pub function: Sym,
    /// All arguments.
    pub arguments: Vec<TermId>,
    /// The values of the first ones.
    pub values: Values,
}

/// An IF of which the test has a value.
#[derive(Clone, Copy)]
pub struct Choosing {
    /// The test and the two sides.
    pub parts: Branches,
    /// The side that the test chooses.
    pub side: TermId,
    /// The value of the test.
    pub test: Known,
}

/// A call of which the arguments have values, and the call of these values was opened.
#[derive(Drop)]
pub struct Entered {
    /// The call of the values.
    pub call: ValuesCall,
    /// What it opens to.
    pub opened: Opened,
    /// How many calls the arguments take.
    pub used: u32,
    /// How far the openings of the arguments nest.
    pub deepest: u32,
}

/// What a term waits for.
#[derive(Drop)]
pub enum Wait {
    /// The value of its next argument.
    Argument(Gathering),
    /// The value of its test.
    Test(Branches),
    /// The value of the side that its test chooses.
    Side(Choosing),
    /// The value of what it opens to.
    Body(Entered),
}

/// A term that waits for the value of a part.
#[derive(Drop)]
pub struct Frame {
    /// The term.
    pub request: Request,
    /// What it waits for.
    pub wait: Wait,
}

/// What comes next.
#[derive(Clone, Copy)]
pub enum Turn {
    /// What a call was opened to is entered.
    Enter(Request),
    /// A term is looked at.
    Look(Request),
    /// What is found for a term goes to what waits for it.
    Give(Request, Found),
}

/// What comes of looking at a term, or of a value that it waited for.
#[derive(Drop)]
pub enum Step {
    /// What is found for it.
    Found(Found),
    /// It waits.
    Wait(Frame),
}

/// What comes of a call on values.
#[derive(Clone, Copy)]
pub enum CallAnswer {
    /// What is found for it.
    Found(Found),
    /// It was opened.
    Opened(Opened),
}

/// The part of which the value is waited for.
fn child_at(request: Request, wait: &Wait) -> Request
    requires { CanWait request wait.now }
    ensures { result ≡ child_at request wait.now }
{
    match wait {
        Wait::Argument(gathering) => Request {
            term: gathering.arguments[gathering.values.known.len()],
            nesting: request.nesting,
            calls: request.calls - gathering.values.calls,
        },
        Wait::Test(parts) => Request {
            term: parts.test,
            nesting: request.nesting,
            calls: request.calls,
        },
        Wait::Side(choosing) => Request {
            term: choosing.side,
            nesting: request.nesting,
            calls: request.calls - choosing.test.calls,
        },
        Wait::Body(entered) => Request {
            term: entered.opened.body,
            nesting: request.nesting - 1,
            calls: request.calls - entered.used - 1,
        },
    }
}

/// What comes after a term that waits.
pub fn turn_of(frame: &Frame) -> Turn
    requires { CanWait frame.now.request frame.now.wait }
    ensures { result ≡ turn_of frame.now }
{
    let child = child_at(frame.request, &frame.wait);
    match &frame.wait {
        Wait::Argument(_) => Turn::Look(child),
        Wait::Test(_) => Turn::Look(child),
        Wait::Side(_) => Turn::Look(child),
        Wait::Body(_) => Turn::Enter(child),
    }
}
