//! Which lines are dropped after each line.
ghost use Rattle.std.specs.Prelude.{◌≡◌, ◌≤◌, ◌<◌, ◌-◌, ◌&&◌, ◌++◌, ◌∷◌, ℕ, suc, nat_eq, nat_le, IfOk, OnOk, length, map, get_or, [], if◌then◌else◌};
ghost use Rattle.nq_drops.specs.Drops.{numbers_where};

use std::alloc::{AllocError, Global};

/// So many empty lists.
fn empty_lists(alloc: Global, count: usize) -> Result<Vec<Vec<u64>>, AllocError>
    ensures count { IfOk result (λ lists. length lists.items ≡ count) }
    ensures empty { IfOk result (λ lists. (n : ℕ) → get_or (map (λ ls. ls.items) lists.items) n [] ≡ []) }
{
    let mut lists = Vec::new(alloc);
    for _ in 0..count {
        lists.push(Vec::new(alloc))?;
    }
    Ok(lists)
}

/// Adds a line to the list of its last use.
fn put_end(ends: &mut Vec<Vec<u64>>, line: u64, n: u64) -> Result<(), AllocError>
    ensures count { OnOk result (length ends.new.items ≡ length ends.old.items) }
    ensures put { OnOk result ((k : ℕ) → k < length ends.old.items → get_or (map (λ ls. ls.items) ends.new.items) k [] ≡ (if nat_eq n k && nat_le line n then get_or (map (λ ls. ls.items) ends.old.items) k [] ++ (line ∷ []) else get_or (map (λ ls. ls.items) ends.old.items) k [])) }
{
    if line <= n && n < ends.len() as u64 {
        ends[n as usize].push(line)?;
    }
    Ok(())
}

/// For each number up to that of the last line, the lines up to it that are used last there, in ascending order.
pub fn ends_of(alloc: Global, last: &[u64]) -> Result<Vec<Vec<u64>>, AllocError>
    ensures count { IfOk result (λ ends. length ends.items ≡ suc (length last.now)) }
    ensures ends { IfOk result (λ ends. (n : ℕ) → n ≤ length last.now → get_or (map (λ ls. ls.items) ends.items) n [] ≡ numbers_where (λ l. nat_eq (get_or last.now (l - 1) 0) n) 1 n) }
{
    let mut ends = empty_lists(alloc, last.len() + 1)?;
    for (k, n) in last.iter().enumerate() {
        put_end(&mut ends, k as u64 + 1, *n)?;
    }
    Ok(ends)
}
