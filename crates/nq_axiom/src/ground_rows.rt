//! The rows of the ground symbols.
ghost use Rattle.std.specs.Prelude.{◌≡◌, ◌<◌, All, IfOk, IfSome};
ghost use Rattle.std.specs.Option.{option_map};
ghost use Rattle.nq_bank.specs.Content.{IsNamed, text_at};
ghost use Rattle.nq_proof.specs.Rows.{ground_rows, row_found};
ghost use Rattle.nq_steps.specs.Steps.{stack_of, StepStands};
ghost use Rattle.nq_axiom.specs.Steps.{ground_content};
ghost use Rattle.nq_axiom.specs.Drafts.{draft_at, DraftStands};
ghost use Rattle.nq_axiom.specs.Table.{literals_of, rows_of, IsGroundRow};

use nq_bank::{Bank, Sym, ground};
use nq_steps::{Leaf, Step};
use std::alloc::AllocError;

/// A row of the table: the steps make its literals.
#[derive(Clone, Copy)]
pub struct AxiomRow {
    pub name: Sym,
    pub row: u64,
    pub literals: &'static [Step],
}

const X: Step = Step::Leaf(Leaf::Letter(b'X'));

const Y: Step = Step::Leaf(Leaf::Letter(b'Y'));

const Z: Step = Step::Leaf(Leaf::Letter(b'Z'));

const T: Step = Step::Call(ground::TRUE, 0);

const F: Step = Step::Call(ground::FALSE, 0);

const NOT: Step = Step::Call(ground::NOT, 1);

const EQUAL: Step = Step::Call(ground::EQUAL, 2);

const IF: Step = Step::Call(ground::IF, 3);

/// The rows, in their order.
const ROWS: [AxiomRow; 8] = [
    AxiomRow {
        name: ground::TRUE,
        row: 1,
        literals: &[T],
    },
    AxiomRow {
        name: ground::FALSE,
        row: 1,
        literals: &[F, NOT],
    },
    AxiomRow {
        name: ground::FALSE,
        row: 2,
        literals: &[X, X, F, EQUAL],
    },
    AxiomRow {
        name: ground::EQUAL,
        row: 1,
        literals: &[X, Y, EQUAL, T, EQUAL, X, Y, EQUAL, F, EQUAL],
    },
    AxiomRow {
        name: ground::IF,
        row: 1,
        literals: &[X, X, Y, Z, IF, Z, EQUAL],
    },
    AxiomRow {
        name: ground::IF,
        row: 2,
        literals: &[X, NOT, X, Y, Z, IF, Y, EQUAL],
    },
    AxiomRow {
        name: ground::COUNT,
        row: 1,
        literals: &[
            X,
            Step::Call(ground::COUNT, 1),
            Step::Call(ground::NUMBERP, 1),
        ],
    },
    AxiomRow {
        name: ground::LESSP,
        row: 2,
        literals: &[
            X,
            Step::Call(ground::ZEROP, 1),
            X,
            Step::Call(ground::SUB1, 1),
            X,
            Step::Call(ground::LESSP, 2),
        ],
    },
];

/// The table.
fn rows() -> [AxiomRow; 8]
    ensures rows { rows_of result ≡ ground_rows }
    ensures ground { All IsGroundRow result }
{
    ROWS
}

/// The row of this name and number.
fn row_among(bank: &Bank, rows: &[AxiomRow], name: Sym, row: u64) -> Option<AxiomRow>
    requires rows { All IsGroundRow rows.now }
    requires name { IsNamed bank.now name }
    ensures literals { option_map literals_of result ≡ row_found (text_at bank.now name) row (rows_of rows.now) }
    ensures ground { IfSome result IsGroundRow }
{
    for r in rows {
        if bank.is_ground(name, r.name) && row == r.row {
            return Some(*r);
        }
    }
    None
}

/// A copy of steps that use no name but the ground names.
fn copied_steps(bank: &Bank, known: &[Step]) -> Result<Vec<Step>, AllocError>
    requires { All (StepStands ground_content) known.now }
    ensures stand { IfOk result (λ steps. All (StepStands bank.now) steps.items) }
    ensures makes { IfOk result (λ steps. stack_of bank.now steps.items ≡ stack_of ground_content known.now) }
{
    bank.is_sound();
    Vec::from_slice(bank.alloc(), known)
}

/// The axiom of a ground symbol in a row.
pub fn ground_steps(bank: &Bank, name: Sym, row: u64) -> Result<Option<Vec<Step>>, AllocError>
    requires { IsNamed bank.now name }
    ensures stand { IfOk result (DraftStands bank.now) }
    ensures makes { IfOk result (λ draft. draft_at bank.now draft ≡ row_found (text_at bank.now name) row ground_rows) }
{
    match row_among(bank, &rows(), name, row) {
        None => Ok(None),
        Some(r) => {
            let steps = copied_steps(bank, r.literals)?;
            Ok(Some(steps))
        }
    }
}
