//! How many IF paths a term has.
ghost use Rattle.std.specs.Prelude.{◌≡◌, ◌≤◌, ◌+◌, ◌*◌, ◌++◌, ◌∷◌, [], ◌↔◌, nat_eq, min, length, Some, IfOk, OnOk, MatchOption, IsTrue, ◌<◌, ◌^◌};
ghost use Rattle.std.specs.HashMap.{get, Updates};
ghost use Rattle.nq_bank.specs.Content.{Stands, IsNamed, text_at, term_at};
ghost use Rattle.nq_cases.specs.Paths.{product, branch_paths, call_paths, paths_of, has_if};
ghost use Rattle.nq_cases.specs.Counts.{HasCounts};

use nq_bank::{Bank, Node, Sym, TermId, ground};
use std::alloc::AllocError;
use std::collections::HashMap;

/// A product, or the cap where it is more.
fn capped_product(left: u128, right: u128, cap: u128) -> u128
    ensures { result ≡ min (left * right) cap }
{
    let product = left.saturating_mul(right);
    if product < cap { product } else { cap }
}

/// A sum, or the cap where it is more.
fn capped_sum(left: u128, right: u128, cap: u128) -> u128
    ensures { result ≡ min (left + right) cap }
{
    let sum = left.saturating_add(right);
    if sum < cap { sum } else { cap }
}

/// The product of counts, or the cap where it is more.
fn product_of(counts: &[u128], cap: u128) -> u128
    requires { 1 ≤ cap }
    ensures { result ≡ min (product counts.now) cap }
{
    let mut product = 1;
    for n in counts {
        product = capped_product(product, *n, cap);
    }
    product
}

/// The paths of an IF from those of its three arguments, and the product of another number of counts.
fn branches_of(counts: &[u128], cap: u128) -> u128
    requires { 1 ≤ cap }
    ensures { result ≡ min (branch_paths counts.now) cap }
{
    if counts.len() == 3 {
        let branches = capped_sum(counts[1], counts[2], cap);
        capped_product(counts[0], branches, cap)
    } else {
        product_of(counts, cap)
    }
}

/// The paths of a call from those of its arguments.
fn call_count(bank: &Bank, f: Sym, counts: &[u128], cap: u128) -> u128
    requires named { IsNamed bank.now f }
    requires cap { 1 ≤ cap }
    ensures { result ≡ min (call_paths (text_at bank.now f) counts.now) cap }
{
    if bank.is_ground(f, ground::IF) {
        branches_of(counts, cap)
    } else {
        product_of(counts, cap)
    }
}

/// The count that is known for a term.
fn known_count(known: &HashMap<u64, u128>, t: TermId) -> Option<u128>
    ensures { result ≡ get nat_eq known.now t.0 }
{
    known.get(&t.0).copied()
}

/// Keeps the count for a term.
fn keep_count(known: &mut HashMap<u64, u128>, t: TermId, count: u128) -> Result<(), AllocError>
    ensures { OnOk result (Updates nat_eq known.old known.new t.0 (Some count)) }
{
    known.insert(t.0, count)?;
    Ok(())
}

/// Adds a count.
fn add_count(counts: &mut Vec<u128>, count: u128) -> Result<(), AllocError>
    ensures { OnOk result (counts.new.items ≡ counts.old.items ++ count ∷ []) }
{
    counts.push(count)?;
    Ok(())
}

/// How many IF paths a term has, or the cap where they are more; the counts of some terms are known. Each shared node is
/// looked at once.
pub fn count_paths(
    bank: &Bank,
    known: &mut HashMap<u64, u128>,
    t: TermId,
    cap: u128,
) -> Result<u128, AllocError>
    requires stands { Stands bank.now t }
    requires cap { 1 ≤ cap }
    requires counts { HasCounts bank.now cap known.old }
    ensures ok { IfOk result (λ n. n ≡ min (paths_of (term_at bank.now t)) cap) }
    ensures counts { OnOk result (HasCounts bank.now cap known.new) }
{
    match bank.node(t) {
        Node::Var(_) => Ok(1),
        Node::Num(_) => Ok(1),
        Node::App(f, _) => match known_count(known, t) {
            Some(count) => Ok(count),
            None => {
                let mut counts = Vec::new(bank.alloc());
                for a in bank.args(t) {
                    let here = count_paths(bank, known, *a, cap)?;
                    add_count(&mut counts, here)?;
                }
                let count = call_count(bank, f, counts.as_slice(), cap);
                keep_count(known, t, count)?;
                Ok(count)
            }
        },
    }
}

/// Whether a term has an IF of three arguments, as its paths are then at least two.
pub fn has_if(
    bank: &Bank,
    known: &mut HashMap<u64, u128>,
    t: TermId,
    cap: u128,
) -> Result<bool, AllocError>
    requires stands { Stands bank.now t }
    requires cap { 2 ≤ cap }
    requires counts { HasCounts bank.now cap known.old }
    ensures ok { IfOk result (λ b. b ≡ has_if (term_at bank.now t)) }
    ensures counts { OnOk result (HasCounts bank.now cap known.new) }
{
    let count = count_paths(bank, known, t, cap)?;
    Ok(count > 1)
}

/// The number of IF paths of a term, or none where they are more than `most`.
pub fn paths_within(bank: &Bank, t: TermId, most: u64) -> Result<Option<u64>, AllocError>
    requires stands { Stands bank.now t }
    ensures { IfOk result (λ o. MatchOption o (most < paths_of (term_at bank.now t)) (λ n. (n ≡ paths_of (term_at bank.now t)) × (n ≤ most))) }
{
    let mut known = HashMap::new(bank.alloc());
    let cap = u128::from(most) + 1;
    let count = count_paths(bank, &mut known, t, cap)?;
    if count < cap {
        Ok(Some(count as u64))
    } else {
        Ok(None)
    }
}
