//! The calls of a function within a body, in the order of their opening parentheses, each with all tests that govern it.
ghost use Rattle.std.specs.Prelude.{◌≡◌, ◌++◌, [], All, IfOk, OnOk, IfSome};
ghost use Rattle.nq_logic.specs.Admissible.{own_call, calls_of};
ghost use Rattle.nq_bank.specs.Content.{Content, IsNamed, Stands, text_at, term_at, terms_at};
ghost use Rattle.nq_calls.specs.Calls.{GuardStands, SiteStands, guards_at, optional_guard, place_tests, sites_at};
ghost use Rattle.nq_calls.specs.Mentions.{IsApart};
ghost use Rattle.nq_tracer.specs.Sites.{beneath};

use nq_bank::ground::IF;
use nq_bank::{Bank, Node, Sym, TermId, is_same_name};
use nq_calls::{Guard, Site};
use std::alloc::{AllocError, Global};

/// The test of an IF that governs the argument at a place, counted from 0.
fn guard_of_place(choice: bool, args: &[TermId], place: usize) -> Option<Guard>
    ensures test { (bank : Content) → optional_guard bank result ≡ place_tests choice (terms_at bank args.now) place }
    ensures stands { (bank : Content) → All (Stands bank) args.now → IfSome result (GuardStands bank) }
{
    if !choice || args.len() == 0 {
        return None;
    }
    if place == 1 {
        return Some(Guard {
            test: args[0],
            holds: true,
        });
    }
    if place == 2 {
        return Some(Guard {
            test: args[0],
            holds: false,
        });
    }
    None
}

/// The tests that govern an argument, which one more may govern, of a call that is governed by these.
fn path_to(alloc: Global, guard: Option<Guard>, path: &[Guard]) -> Result<Vec<Guard>, AllocError>
    ensures tests { IfOk result (λ v. (bank : Content) → guards_at bank v.items ≡ guards_at bank path.now ++ optional_guard bank guard) }
    ensures stands { IfOk result (λ v. (bank : Content) → IfSome guard (GuardStands bank) → All (GuardStands bank) path.now → All (GuardStands bank) v.items) }
{
    match guard {
        None => Vec::from_slice(alloc, path),
        Some(guard) => {
            let mut inner = Vec::from_slice(alloc, path)?;
            inner.push(guard)?;
            Ok(inner)
        }
    }
}

/// Adds a call, where it is one of the function.
fn add_own(
    bank: &Bank,
    f: Sym,
    g: Sym,
    args: &[TermId],
    path: &[Guard],
    sites: &mut Vec<Site>,
) -> Result<(), AllocError>
    requires function { IsNamed bank.now f }
    requires called { IsNamed bank.now g }
    requires arguments { All (Stands bank.now) args.now }
    requires path { All (GuardStands bank.now) path.now }
    requires sites { All (SiteStands bank.now) sites.old.items }
    ensures calls { OnOk result (sites_at bank.now sites.new.items ≡ sites_at bank.now sites.old.items ++ beneath (guards_at bank.now path.now) (own_call (text_at bank.now f) (text_at bank.now g) (terms_at bank.now args.now))) }
    ensures stand { OnOk result (All (SiteStands bank.now) sites.new.items) }
{
    if !is_same_name(bank, f, g) {
        return Ok(());
    }
    let guards = Vec::from_slice(bank.alloc(), path)?;
    let arguments = Vec::from_slice(bank.alloc(), args)?;
    sites.push(Site { guards, arguments })?;
    Ok(())
}

/// Adds the calls of the function within a term that these tests govern.
fn add_calls(
    bank: &Bank,
    f: Sym,
    t: TermId,
    path: &[Guard],
    sites: &mut Vec<Site>,
) -> Result<(), AllocError>
    requires function { IsNamed bank.now f }
    requires apart { IsApart (text_at bank.now f) }
    requires term { Stands bank.now t }
    requires path { All (GuardStands bank.now) path.now }
    requires sites { All (SiteStands bank.now) sites.old.items }
    ensures calls { OnOk result (sites_at bank.now sites.new.items ≡ sites_at bank.now sites.old.items ++ beneath (guards_at bank.now path.now) (calls_of (text_at bank.now f) (term_at bank.now t))) }
    ensures stand { OnOk result (All (SiteStands bank.now) sites.new.items) }
{
    match bank.node(t) {
        Node::Var(_) => Ok(()),
        Node::Num(_) => Ok(()),
        Node::App(g, _) => {
            let args = bank.args(t);
            let choice = bank.is_ground(g, IF);
            add_own(bank, f, g, args, path, sites)?;
            for place in 0..args.len() {
                let guard = guard_of_place(choice, args, place);
                let inner = path_to(bank.alloc(), guard, path)?;
                add_calls(bank, f, args[place], inner.as_slice(), sites)?;
            }
            Ok(())
        }
    }
}

/// The calls of a function within a body.
pub fn calls_within(bank: &Bank, f: Sym, body: TermId) -> Result<Vec<Site>, AllocError>
    requires function { IsNamed bank.now f }
    requires apart { IsApart (text_at bank.now f) }
    requires body { Stands bank.now body }
    ensures calls { IfOk result (λ v. sites_at bank.now v.items ≡ calls_of (text_at bank.now f) (term_at bank.now body)) }
    ensures stand { IfOk result (λ v. All (SiteStands bank.now) v.items) }
{
    let mut sites = Vec::new(bank.alloc());
    add_calls(bank, f, body, &[], &mut sites)?;
    Ok(sites)
}
