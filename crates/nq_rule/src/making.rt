//! Terms that are made of others.
ghost use Rattle.std.specs.Prelude.{◌≡◌, ◌<◌, All, IfOk, Err};
ghost use Rattle.nq_logic.specs.Terms.{call};
ghost use Rattle.nq_bank.specs.GroundNames.{ground_count};
ghost use Rattle.nq_bank.specs.Soundness.{ground_text};
ghost use Rattle.nq_logic.specs.Sizes.{depth_of, depth_limit};
ghost use Rattle.nq_bank.specs.Content.{Stands, IsIdOf, Grows, terms_at};

use nq_bank::{Bank, BankFault, Sym, TermId, ground_name};

/// The call of a ground function.
pub fn ground_call(bank: &mut Bank, known: Sym, arguments: &[TermId]) -> Result<TermId, BankFault>
    requires known { known.0 < ground_count }
    requires arguments { All (Stands bank.old) arguments.now }
    ensures ok { IfOk result (λ t. IsIdOf bank.new t (call (ground_text known) (terms_at bank.old arguments.now))) }
    ensures grows { Grows bank.old bank.new }
    ensures names { bank.new.names ≡ bank.old.names }
    ensures deep { result ≡ Err BankFault.Deep → depth_limit < depth_of (call (ground_text known) (terms_at bank.old arguments.now)) }
{
    let f = ground_name(bank, known);
    bank.app(f, arguments)
}
