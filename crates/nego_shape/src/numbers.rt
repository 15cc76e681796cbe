//! The lines of a text with numbers in place of names: each name is looked up once. What gives the numbers of a part
//! fails with the part's first name that isn't declared.

ghost use Rattle.std.specs.Prelude.{◌≡◌, [], map, IfOk, IfErr};
ghost use Rattle.std.specs.List.{flat_map};
ghost use Rattle.nego_reader.specs.Content.{content_of, case_content, test_content, set_content, right_content, term_content, texts};
ghost use Rattle.nego_reader.specs.Rising.{right_words, test_words, term_words, set_words};
ghost use Rattle.nego_reader.specs.Rows.{CaseRow, NextRow};
ghost use Rattle.nego_shape.specs.Faults.{others, undeclared_in, faults, first_of};
ghost use Rattle.nego_shape.specs.Answer.{Tells};
ghost use Rattle.nego_shape.specs.Conditions.{AllDeclared};
ghost use Rattle.nego_shape.specs.Made.{next_numbers, out_numbers, atom_numbers};
ghost use Rattle.nego_shape.specs.Naming.{agent_names, parties_in, operand_in, test_in, term_in, set_in, case_in};
ghost use Rattle.nego_shape.specs.Undeclared.{undeclared_in_out, undeclared_in_atom, Declares};

use crate::fault::ShapeAnswer;
use crate::numbering::Numbered;
use nego_base::{AgentSet, AtomId, Seq, Word};
use nego_data::cases::{Case, Operand, Set, Term, Test};
use nego_reader::{PAtom, PCase, PNext, POut, PRight, PSet, PTerm, PTest};
use std::alloc::Global;

/// A next line: its atom, and the agents on it.
#[derive(Debug, Drop)]
pub struct NextNumbers {
    pub atom: AtomId,
    pub agents: AgentSet,
}

/// The next lines and the cases of an outcome.
#[derive(Debug, Drop)]
pub struct OutNumbers {
    pub nexts: Seq<NextNumbers>,
    pub cases: Seq<Case>,
}

/// The parties of an atom, and its outcomes.
#[derive(Debug, Drop)]
pub struct AtomNumbers {
    pub parties: AgentSet,
    pub outs: Seq<OutNumbers>,
}

/// The atoms of the text, all of whose names are declared. An error tells the first name that isn't, among those of the
/// first and the last atom too.
pub(crate) fn atoms_numbers(alloc: Global, p: &Numbered) -> Result<Seq<AtomNumbers>, ShapeAnswer>
    ensures numbers { IfOk result (λ made. made ≡ map (atom_numbers (content_of p.now)) p.now.atoms) }
    ensures declared { IfOk result (λ _. faults AllDeclared p.now ≡ []) }
    ensures err { IfErr result (λ e. Tells e (first_of (faults AllDeclared p.now))) }
{
    let text = p.text();
    let mut made = Seq::new(alloc);
    for atom in text.atoms.iter() {
        made.push(atom_of(alloc, p, atom)?)?;
    }
    p.declared_atom(alloc, &text.first)?;
    p.declared_atom(alloc, &text.last)?;
    Ok(made)
}

#[tactic(auto, using(crate::proofs::DeclaredParts::told_front))]
fn atom_of(alloc: Global, p: &Numbered, atom: &PAtom) -> Result<AtomNumbers, ShapeAnswer>
    ensures numbers { IfOk result (λ made. made ≡ atom_numbers (content_of p.now) atom.now) }
    ensures declared { Declares result (undeclared_in_atom (content_of p.now) atom.now) }
{
    Ok(AtomNumbers {
        parties: party_set(alloc, p, atom.parties.as_slice())?,
        outs: outs_numbers(alloc, p, atom.outs.as_slice())?,
    })
}

/// The outcomes of an atom.
#[tactic(auto, using(crate::proofs::DeclaredParts::told_here))]
fn outs_numbers(alloc: Global, p: &Numbered, outs: &[POut]) -> Result<Seq<OutNumbers>, ShapeAnswer>
    ensures numbers { IfOk result (λ made. made ≡ map (out_numbers (content_of p.now)) outs.now) }
    ensures declared { Declares result (flat_map (undeclared_in_out (content_of p.now)) outs.now) }
{
    let mut made = Seq::new(alloc);
    for out in outs {
        made.push(out_of(alloc, p, out)?)?;
    }
    Ok(made)
}

#[tactic(auto, using(crate::proofs::DeclaredParts::told_front))]
fn out_of(alloc: Global, p: &Numbered, out: &POut) -> Result<OutNumbers, ShapeAnswer>
    ensures numbers { IfOk result (λ made. made ≡ out_numbers (content_of p.now) out.now) }
    ensures declared { Declares result (undeclared_in_out (content_of p.now) out.now) }
{
    Ok(OutNumbers {
        cases: cases_of(alloc, p, out.cases.as_slice())?,
        nexts: nexts_numbers(alloc, p, out.nexts.as_slice())?,
    })
}

/// The next lines.
#[tactic(auto, using(crate::proofs::DeclaredParts::told_here))]
fn nexts_numbers(
    alloc: Global,
    p: &Numbered,
    nexts: &[PNext],
) -> Result<Seq<NextNumbers>, ShapeAnswer>
    ensures numbers { IfOk result (λ made. made ≡ map (next_numbers (content_of p.now)) nexts.now) }
    ensures declared { Declares result (flat_map (λ next. undeclared_in (content_of p.now) (NextRow next)) nexts.now) }
{
    let mut made = Seq::new(alloc);
    for next in nexts {
        made.push(next_of(alloc, p, next)?)?;
    }
    Ok(made)
}

fn next_of(alloc: Global, p: &Numbered, next: &PNext) -> Result<NextNumbers, ShapeAnswer>
    ensures numbers { IfOk result (λ made. made ≡ next_numbers (content_of p.now) next.now) }
    ensures declared { Declares result (undeclared_in (content_of p.now) (NextRow next.now)) }
{
    Ok(NextNumbers {
        atom: p.declared_atom(alloc, &next.atom)?,
        agents: party_set(alloc, p, next.agents.as_slice())?,
    })
}

/// The agents of these names.
fn party_set(alloc: Global, p: &Numbered, names: &[Word]) -> Result<AgentSet, ShapeAnswer>
    ensures numbers { IfOk result (λ set. set ≡ parties_in (content_of p.now) (texts names.now)) }
    ensures declared { Declares result (others (agent_names (content_of p.now)) names.now) }
{
    let mut set = AgentSet::none();
    for name in names {
        set = set.with(p.declared_agent(alloc, name)?);
    }
    Ok(set)
}

/// The cases, with agents' numbers.
#[tactic(auto, using(crate::proofs::DeclaredParts::told_here))]
fn cases_of(alloc: Global, p: &Numbered, cases: &[PCase]) -> Result<Seq<Case>, ShapeAnswer>
    ensures numbers { IfOk result (λ made. made ≡ map (λ case. case_in (content_of p.now) (case_content case)) cases.now) }
    ensures declared { Declares result (flat_map (λ case. undeclared_in (content_of p.now) (CaseRow case)) cases.now) }
{
    let mut made = Seq::new(alloc);
    for case in cases {
        made.push(case_of(alloc, p, case)?)?;
    }
    Ok(made)
}

fn case_of(alloc: Global, p: &Numbered, case: &PCase) -> Result<Case, ShapeAnswer>
    ensures numbers { IfOk result (λ made. made ≡ case_in (content_of p.now) (case_content case.now)) }
    ensures declared { Declares result (undeclared_in (content_of p.now) (CaseRow case.now)) }
{
    Ok(Case {
        tests: tests_of(alloc, p, case.tests.as_slice())?,
        sets: sets_of(alloc, p, case.sets.as_slice())?,
    })
}

/// The comparisons.
fn tests_of(alloc: Global, p: &Numbered, tests: &[PTest]) -> Result<Seq<Test>, ShapeAnswer>
    ensures numbers { IfOk result (λ made. made ≡ map (λ test. test_in (content_of p.now) (test_content test)) tests.now) }
    ensures declared { Declares result (flat_map (λ test. others (agent_names (content_of p.now)) (test_words test)) tests.now) }
{
    let mut made = Seq::new(alloc);
    for test in tests {
        made.push(test_of(alloc, p, test)?)?;
    }
    Ok(made)
}

fn test_of(alloc: Global, p: &Numbered, test: &PTest) -> Result<Test, ShapeAnswer>
    ensures numbers { IfOk result (λ made. made ≡ test_in (content_of p.now) (test_content test.now)) }
    ensures declared { Declares result (others (agent_names (content_of p.now)) (test_words test.now)) }
{
    Ok(Test {
        agent: p.declared_agent(alloc, &test.left)?,
        op: test.op,
        right: match &test.right {
            PRight::Number(n) => Operand::Number(*n),
            PRight::Name(name) => Operand::Value(p.declared_agent(alloc, name)?),
        },
    })
}

/// The assignments.
fn sets_of(alloc: Global, p: &Numbered, sets: &[PSet]) -> Result<Seq<Set>, ShapeAnswer>
    ensures numbers { IfOk result (λ made. made ≡ map (λ set. set_in (content_of p.now) (set_content set)) sets.now) }
    ensures declared { Declares result (flat_map (λ set. others (agent_names (content_of p.now)) (set_words set)) sets.now) }
{
    let mut made = Seq::new(alloc);
    for set in sets {
        made.push(set_of(alloc, p, set)?)?;
    }
    Ok(made)
}

fn set_of(alloc: Global, p: &Numbered, set: &PSet) -> Result<Set, ShapeAnswer>
    ensures numbers { IfOk result (λ made. made ≡ set_in (content_of p.now) (set_content set.now)) }
    ensures declared { Declares result (others (agent_names (content_of p.now)) (set_words set.now)) }
{
    Ok(Set {
        agent: p.declared_agent(alloc, &set.agent)?,
        term: match &set.term {
            PTerm::Any => Term::Any,
            PTerm::Number(n) => Term::Number(*n),
            PTerm::Plus(name, n) => Term::Plus(p.declared_agent(alloc, name)?, *n),
            PTerm::Minus(name, n) => Term::Minus(p.declared_agent(alloc, name)?, *n),
        },
    })
}
