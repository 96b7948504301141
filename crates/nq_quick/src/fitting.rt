//! Which terms are no instance of a pattern, as a look at their functions tells.
ghost use Rattle.std.specs.Prelude.{◌≡◌, false};
ghost use Rattle.nq_bank.specs.Content.{Stands};
ghost use Rattle.nq_quick.specs.Fitting.{FitsNone};

use nq_bank::{Bank, Node, TermId, is_same_name};

/// Is a term an instance of the pattern, as far as so many levels tell? It takes no memory. Each level may be looked at once for
/// each argument above it, so the levels are to be few.
pub fn may_fit(bank: &Bank, pattern: TermId, t: TermId, levels: u64) -> bool
    requires pattern { Stands bank.now pattern }
    requires term { Stands bank.now t }
    ensures { result ≡ false → FitsNone bank.now pattern t }
{
    if levels == 0 || pattern.0 == t.0 {
        return true;
    }
    match bank.node(pattern) {
        Node::Var(_) => true,
        Node::Num(_) => false,
        Node::App(f, _) => match bank.node(t) {
            Node::App(g, _) => {
                if !is_same_name(bank, f, g) {
                    return false;
                }
                let patterns = bank.args(pattern);
                let arguments = bank.args(t);
                if patterns.len() != arguments.len() {
                    return false;
                }
                for i in 0..patterns.len() {
                    if !may_fit(bank, patterns[i], arguments[i], levels - 1) {
                        return false;
                    }
                }
                true
            }
            Node::Num(_) => true,
            Node::Var(_) => false,
        },
    }
}
