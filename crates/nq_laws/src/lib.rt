//! Laws of arithmetic on terms with variables, each derivable in every history.
//!
//! The clauses stand in the definitions, a file for each topic, and their proofs are logs of rule lines, which the check
//! computes. A program found and printed this crate (folder tools), and none of it is written by hand. Each law NAME is also
//! there at terms: `NAME_at` is its conclusion at terms that meet its hypotheses, or `NAME_clause_at` its clause at terms.
#![tactic(auto)]

ghost use Rattle.nq_laws.specs.Laws.{AreDerivable};
ghost use Rattle.nq_laws.specs.Zero.{laws_of_zero};
ghost use Rattle.nq_laws.specs.Ordinals.{laws_of_ordinals};
ghost use Rattle.nq_laws.specs.Plus.{laws_of_plus};
ghost use Rattle.nq_laws.specs.PlusOrder.{laws_of_plus_order};
ghost use Rattle.nq_laws.specs.Less.{laws_of_less};
ghost use Rattle.nq_laws.specs.LessChains.{laws_of_less_chains};
ghost use Rattle.nq_laws.specs.Times.{laws_of_times};
ghost use Rattle.nq_laws.specs.Sizes.{laws_of_sizes};
ghost use Rattle.nq_laws.specs.TruthValues.{laws_of_truth_values};
ghost use Rattle.nq_laws.specs.NumberTests.{laws_of_number_tests};
ghost use Rattle.nq_laws.specs.ListTests.{laws_of_list_tests};
ghost use Rattle.nq_laws.specs.AtomTests.{laws_of_atom_tests};
ghost use Rattle.nq_laws.specs.NegativeTests.{laws_of_negative_tests};
ghost use Rattle.nq_laws.specs.Distinct.{laws_of_distinct};
ghost use Rattle.nq_laws.specs.Parts.{laws_of_parts};
ghost use Rattle.nq_laws.specs.PartsByFix.{laws_of_parts_by_fix};
ghost use Rattle.nq_laws.specs.Connectives.{laws_of_connectives};
ghost use Rattle.nq_laws.specs.Implications.{laws_of_implications};
ghost use Rattle.nq_laws.specs.Comparisons.{laws_of_comparisons};
ghost use Rattle.nq_laws.specs.Quotients.{laws_of_quotients};
ghost use Rattle.nq_laws.specs.Fixes.{laws_of_fixes};
ghost use Rattle.nq_laws.specs.ByFixes.{laws_of_by_fixes};
ghost use Rattle.nq_laws.specs.Differences.{laws_of_differences};
ghost use Rattle.nq_laws.specs.Products.{laws_of_products};
ghost use Rattle.nq_laws.specs.Balances.{laws_of_balances};
ghost use Rattle.nq_laws.specs.Atoms.{laws_of_atoms};
ghost use Rattle.nq_laws.specs.AtomSums.{laws_of_atom_sums};
ghost use Rattle.nq_laws.specs.Balanced.{laws_of_balanced};
ghost use Rattle.nq_laws.specs.SplitLess.{laws_of_split_less};
ghost use Rattle.nq_laws.specs.Bounds.{laws_of_bounds};
ghost use Rattle.nq_laws.specs.LessTurns.{laws_of_less_turns};
ghost use Rattle.nq_laws.specs.Refutations.{laws_of_refutations};
ghost use Rattle.nq_laws.specs.Descents.{laws_of_descents};
ghost use Rattle.nq_laws.specs.Definitions.{laws_of_definitions};
ghost use Rattle.nq_laws.specs.NumberRows.{laws_of_number_rows};
ghost use Rattle.nq_laws.specs.PairRows.{laws_of_pair_rows};
ghost use Rattle.nq_laws.specs.AtomRows.{laws_of_atom_rows};
ghost use Rattle.nq_laws.specs.NegativeRows.{laws_of_negative_rows};
ghost use Rattle.nq_laws.specs.Choices.{laws_of_choices};
ghost use Rattle.nq_laws.specs.Spellings.{laws_of_spellings};

/// Laws of 0, ADD1, SUB1, NUMBERP, ZEROP and FIX.
pub fn zero_laws()
    ensures { AreDerivable laws_of_zero }
{}

/// Laws of ORDINALP and ORD-LESSP on numbers.
pub fn ordinals_laws()
    ensures { AreDerivable laws_of_ordinals }
{}

/// Laws of PLUS step by step.
pub fn plus_laws()
    ensures { AreDerivable laws_of_plus }
{}

/// Laws of the order of terms in a PLUS.
pub fn plus_order_laws()
    ensures { AreDerivable laws_of_plus_order }
{}

/// Laws of LESSP.
pub fn less_laws()
    ensures { AreDerivable laws_of_less }
{}

/// Laws of chains of LESSP, and its steps on numerals.
pub fn less_chains_laws()
    ensures { AreDerivable laws_of_less_chains }
{}

/// Laws of TIMES.
pub fn times_laws()
    ensures { AreDerivable laws_of_times }
{}

/// Laws of COUNT.
pub fn sizes_laws()
    ensures { AreDerivable laws_of_sizes }
{}

/// Laws of T and F as values.
pub fn truth_values_laws()
    ensures { AreDerivable laws_of_truth_values }
{}

/// Laws of NUMBERP on values.
pub fn number_tests_laws()
    ensures { AreDerivable laws_of_number_tests }
{}

/// Laws of LISTP on values.
pub fn list_tests_laws()
    ensures { AreDerivable laws_of_list_tests }
{}

/// Laws of LITATOM on values.
pub fn atom_tests_laws()
    ensures { AreDerivable laws_of_atom_tests }
{}

/// Laws of NEGATIVEP on values.
pub fn negative_tests_laws()
    ensures { AreDerivable laws_of_negative_tests }
{}

/// Laws of values of one kind that differ.
pub fn distinct_laws()
    ensures { AreDerivable laws_of_distinct }
{}

/// Laws of the parts of values.
pub fn parts_laws()
    ensures { AreDerivable laws_of_parts }
{}

/// Laws of functions of one argument, by its FIX.
pub fn parts_by_fix_laws()
    ensures { AreDerivable laws_of_parts_by_fix }
{}

/// Laws of NOT, AND and OR on truth values.
pub fn connectives_laws()
    ensures { AreDerivable laws_of_connectives }
{}

/// Laws of IMPLIES, IFF and IF on truth values.
pub fn implications_laws()
    ensures { AreDerivable laws_of_implications }
{}

/// Laws of functions that are defined by a test of their arguments.
pub fn comparisons_laws()
    ensures { AreDerivable laws_of_comparisons }
{}

/// Laws of DIFFERENCE, QUOTIENT and REMAINDER.
pub fn quotients_laws()
    ensures { AreDerivable laws_of_quotients }
{}

/// Laws of DIFFERENCE, QUOTIENT and REMAINDER, which take another value as 0.
pub fn fixes_laws()
    ensures { AreDerivable laws_of_fixes }
{}

/// Laws of functions of numbers, by the FIX of their arguments.
pub fn by_fixes_laws()
    ensures { AreDerivable laws_of_by_fixes }
{}

/// Laws of DIFFERENCE of a sum.
pub fn differences_laws()
    ensures { AreDerivable laws_of_differences }
{}

/// Laws of TIMES with PLUS.
pub fn products_laws()
    ensures { AreDerivable laws_of_products }
{}

/// Laws of sums and multiples whose two sides agree.
pub fn balances_laws()
    ensures { AreDerivable laws_of_balances }
{}

/// Laws of a sum to which a product is added.
pub fn atoms_laws()
    ensures { AreDerivable laws_of_atoms }
{}

/// Laws of sums of products, added to each other.
pub fn atom_sums_laws()
    ensures { AreDerivable laws_of_atom_sums }
{}

/// Laws of numbers, products and sums as two sides that agree.
pub fn balanced_laws()
    ensures { AreDerivable laws_of_balanced }
{}

/// Laws of LESSP split at a number between.
pub fn split_less_laws()
    ensures { AreDerivable laws_of_split_less }
{}

/// Laws of comparisons of sums.
pub fn bounds_laws()
    ensures { AreDerivable laws_of_bounds }
{}

/// Laws of LESSP turned into the other order.
pub fn less_turns_laws()
    ensures { AreDerivable laws_of_less_turns }
{}

/// Laws of bounds that a negative form refutes.
pub fn refutations_laws()
    ensures { AreDerivable laws_of_refutations }
{}

/// Laws of the sizes of parts.
pub fn descents_laws()
    ensures { AreDerivable laws_of_descents }
{}

/// Laws of each ground function, which equals the body of its definition; IDENTITY is among the parts.
pub fn definitions_laws()
    ensures { AreDerivable laws_of_definitions }
{}

/// Laws of the shell of numbers: the rows of its axioms that are no law under another name.
pub fn number_rows_laws()
    ensures { AreDerivable laws_of_number_rows }
{}

/// Laws of the shell of pairs: the rows of its axioms that are no law under another name.
pub fn pair_rows_laws()
    ensures { AreDerivable laws_of_pair_rows }
{}

/// Laws of the shell of literal atoms: the rows of its axioms that are no law under another name.
pub fn atom_rows_laws()
    ensures { AreDerivable laws_of_atom_rows }
{}

/// Laws of the shell of negatives: the rows of its axioms that are no law under another name.
pub fn negative_rows_laws()
    ensures { AreDerivable laws_of_negative_rows }
{}

/// Laws of TRUEP, FALSEP and OR, of which the restrictions of parts are made.
pub fn choices_laws()
    ensures { AreDerivable laws_of_choices }
{}

/// Laws of the tests under which a part is smaller, each in another spelling.
pub fn spellings_laws()
    ensures { AreDerivable laws_of_spellings }
{}
