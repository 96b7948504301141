//! Texts of terms.
ghost use Rattle.nq_bank.specs.Content.{Stands};

use nq_bank::{Bank, TermId};
use nq_print::print_term;
use std::alloc::AllocError;
use std::test::Fail;

fn shown(bank: &Bank, t: TermId) -> Result<Vec<u8>, AllocError>
    requires { Stands bank.now t }
{
    let mut out = b"> ".to_vec(bank.alloc())?;
    print_term(bank, t, &mut out)?;
    Ok(out)
}

#[test]
fn terms_are_printed_behind_what_stands(rt: HostRuntime) -> Result<(), Fail> {
    let mut bank = Bank::new(rt.alloc())?;
    let number = bank.num(340_282_366_920_938_463_463_374_607_431_768_211_455)?;
    let text = shown(&bank, number)?;
    assert_eq!(rt;
        text.as_slice(),
        b"> 340282366920938463463374607431768211455".as_slice()
    );
    let name = bank.name(b"X-1")?;
    let variable = bank.var(name)?;
    let text = shown(&bank, variable)?;
    assert_eq!(rt; text.as_slice(), b"> X-1".as_slice());
    Ok(())
}
