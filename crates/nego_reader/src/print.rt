//! From what a text says to its printed form.

ghost use Rattle.std.specs.Prelude.{◌≡◌, ℕ, List, [], ◌∷◌, ◌++◌, map, decimal, OnOk, IfOk};
ghost use Rattle.std.specs.List.{flat_map};
ghost use Rattle.nego_reader.specs.declared.parsed.Parsed.{Parsed};
ghost use Rattle.nego_reader.specs.Content.{texts, content_of};
ghost use Rattle.nego_reader.specs.Rows.{AgentRow, CaseRow, NextRow, FirstRow, LastRow, EndRow, out_rows, atom_rows, rows_of};
ghost use Rattle.nego_reader.specs.Spelling.{Spells, op_text};
ghost use Rattle.nego_reader.specs.Printable.{IsPrintableDiagram};
ghost use Rattle.nego_reader.specs.Printing.{right_text, test_text, plus_text, term_text, set_text, row_words, printed_diagram};
ghost use Rattle.nego_reader.specs.PrintedLines.{behind_blanks, line_text, row_texts};

use crate::parsed::{PAgent, PAtom, PCase, PNext, POut, PRight, PSet, PTerm, PTest, Parsed};
use nego_base::{Memory, Op, Text, Word};
use std::alloc::Global;

/// Puts the number behind the text.
fn put_number(text: &mut Text, n: u32) -> Result<(), Memory>
    ensures { OnOk result (text.new ≡ text.old ++ decimal n) }
{
    text.push_decimal(u64::from(n))
}

/// The operator as it is spelled.
fn op_text(op: Op) -> &'static [u8]
    ensures { result.now ≡ op_text op }
{
    match op {
        Op::Eq => b"=",
        Op::Ne => b"!=",
        Op::Lt => b"<",
        Op::Le => b"<=",
        Op::Gt => b">",
        Op::Ge => b">=",
    }
}

/// Puts the right side of a comparison behind the text.
fn put_right(text: &mut Text, right: &PRight) -> Result<(), Memory>
    ensures { OnOk result (text.new ≡ text.old ++ right_text right.now) }
{
    match right {
        PRight::Number(n) => put_number(text, *n),
        PRight::Name(name) => text.extend_from_slice(name.text.as_slice()),
    }
}

/// Puts the comparison behind the text.
fn put_test(text: &mut Text, test: &PTest) -> Result<(), Memory>
    ensures { OnOk result (text.new ≡ text.old ++ test_text test.now) }
{
    text.extend_from_slice(test.left.text.as_slice())?;
    text.extend_from_slice(op_text(test.op))?;
    put_right(text, &test.right)
}

/// Puts the name and the number behind the text, the sign between them.
fn put_sum(text: &mut Text, name: &Word, sign: u8, n: u32) -> Result<(), Memory>
    ensures { OnOk result (text.new ≡ text.old ++ (name.now.text ++ sign ∷ decimal n)) }
{
    text.extend_from_slice(name.text.as_slice())?;
    text.push(sign)?;
    put_number(text, n)
}

/// Puts the name plus the number behind the text.
fn put_plus(text: &mut Text, name: &Word, n: u32) -> Result<(), Memory>
    ensures { OnOk result (text.new ≡ text.old ++ plus_text name.now.text n) }
{
    if n == 0 {
        text.extend_from_slice(name.text.as_slice())
    } else {
        put_sum(text, name, b'+', n)
    }
}

/// Puts what is assigned behind the text.
fn put_term(text: &mut Text, term: &PTerm) -> Result<(), Memory>
    ensures { OnOk result (text.new ≡ text.old ++ term_text term.now) }
{
    match term {
        PTerm::Any => text.push(b'*'),
        PTerm::Number(n) => put_number(text, *n),
        PTerm::Plus(name, n) => put_plus(text, name, *n),
        PTerm::Minus(name, n) => put_sum(text, name, b'-', *n),
    }
}

/// Puts the assignment behind the text.
fn put_set(text: &mut Text, set: &PSet) -> Result<(), Memory>
    ensures { OnOk result (text.new ≡ text.old ++ set_text set.now) }
{
    text.extend_from_slice(set.agent.text.as_slice())?;
    text.extend_from_slice(b":=")?;
    put_term(text, &set.term)
}

/// Puts the words behind the text, a blank before each.
fn put_words(text: &mut Text, words: &[Word]) -> Result<(), Memory>
    ensures { OnOk result (text.new ≡ text.old ++ behind_blanks (texts words.now)) }
{
    for word in words {
        text.push(b' ')?;
        text.extend_from_slice(word.text.as_slice())?;
    }
    Ok(())
}

/// Puts the comparisons behind the text, a blank before each.
fn put_tests(text: &mut Text, tests: &[PTest]) -> Result<(), Memory>
    ensures { OnOk result (text.new ≡ text.old ++ behind_blanks (map test_text tests.now)) }
{
    for test in tests {
        text.push(b' ')?;
        put_test(text, test)?;
    }
    Ok(())
}

/// Puts the assignments behind the text, a blank before each.
fn put_sets(text: &mut Text, sets: &[PSet]) -> Result<(), Memory>
    ensures { OnOk result (text.new ≡ text.old ++ behind_blanks (map set_text sets.now)) }
{
    for set in sets {
        text.push(b' ')?;
        put_set(text, set)?;
    }
    Ok(())
}

/// Puts a line of the keyword, the name and the words behind the text.
fn put_named(text: &mut Text, keyword: &[u8], name: &Word, words: &[Word]) -> Result<(), Memory>
    ensures { OnOk result (text.new ≡ text.old ++ line_text (keyword.now ∷ name.now.text ∷ texts words.now)) }
{
    text.extend_from_slice(keyword)?;
    text.push(b' ')?;
    text.extend_from_slice(name.text.as_slice())?;
    put_words(text, words)?;
    text.push(b'\n')
}

/// Puts the agent's line behind the text.
fn put_agent(text: &mut Text, agent: &PAgent) -> Result<(), Memory>
    ensures { OnOk result (text.new ≡ text.old ++ line_text (row_words (AgentRow agent.now))) }
{
    text.extend_from_slice(b"agent ")?;
    text.extend_from_slice(agent.name.text.as_slice())?;
    text.push(b' ')?;
    put_number(text, agent.size)?;
    text.push(b'\n')
}

/// Puts the case's line behind the text.
fn put_case(text: &mut Text, case: &PCase) -> Result<(), Memory>
    ensures { OnOk result (text.new ≡ text.old ++ line_text (row_words (CaseRow case.now))) }
{
    text.extend_from_slice(b"case")?;
    put_tests(text, case.tests.as_slice())?;
    text.extend_from_slice(b" :")?;
    put_sets(text, case.sets.as_slice())?;
    text.push(b'\n')
}

/// Puts the agents' lines behind the text.
fn put_agents(text: &mut Text, agents: &[PAgent]) -> Result<(), Memory>
    ensures { OnOk result (text.new ≡ text.old ++ row_texts (map AgentRow agents.now)) }
{
    for agent in agents {
        put_agent(text, agent)?;
    }
    Ok(())
}

/// Puts the cases' lines behind the text.
fn put_cases(text: &mut Text, cases: &[PCase]) -> Result<(), Memory>
    ensures { OnOk result (text.new ≡ text.old ++ row_texts (map CaseRow cases.now)) }
{
    for case in cases {
        put_case(text, case)?;
    }
    Ok(())
}

/// Puts the lines of the next atoms behind the text.
fn put_nexts(text: &mut Text, nexts: &[PNext]) -> Result<(), Memory>
    ensures { OnOk result (text.new ≡ text.old ++ row_texts (map NextRow nexts.now)) }
{
    for next in nexts {
        put_named(text, b"next", &next.atom, next.agents.as_slice())?;
    }
    Ok(())
}

/// Puts the outcome's lines behind the text.
#[tactic(auto, unfolding(crate::specs::Rows::out_rows))]
fn put_out(text: &mut Text, out: &POut) -> Result<(), Memory>
    ensures { OnOk result (text.new ≡ text.old ++ row_texts (out_rows out.now)) }
{
    put_named(text, b"out", &out.name, &[])?;
    put_cases(text, out.cases.as_slice())?;
    put_nexts(text, out.nexts.as_slice())
}

/// Puts the outcomes' lines behind the text.
fn put_outs(text: &mut Text, outs: &[POut]) -> Result<(), Memory>
    ensures { OnOk result (text.new ≡ text.old ++ row_texts (flat_map out_rows outs.now)) }
{
    for out in outs {
        put_out(text, out)?;
    }
    Ok(())
}

/// Puts the atom's lines behind the text.
#[tactic(auto, unfolding(crate::specs::Rows::atom_rows))]
fn put_atom(text: &mut Text, atom: &PAtom) -> Result<(), Memory>
    ensures { OnOk result (text.new ≡ text.old ++ row_texts (atom_rows atom.now)) }
{
    put_named(text, b"atom", &atom.name, atom.parties.as_slice())?;
    put_outs(text, atom.outs.as_slice())
}

/// Puts the atoms' lines behind the text.
fn put_atoms(text: &mut Text, atoms: &[PAtom]) -> Result<(), Memory>
    ensures { OnOk result (text.new ≡ text.old ++ row_texts (flat_map atom_rows atoms.now)) }
{
    for atom in atoms {
        put_atom(text, atom)?;
    }
    Ok(())
}

/// Puts the last three lines behind the text.
fn put_ends(text: &mut Text, first: &Word, last: &Word) -> Result<(), Memory>
    ensures { OnOk result (text.new ≡ text.old ++ row_texts (FirstRow first.now ∷ LastRow last.now ∷ EndRow ∷ [])) }
{
    put_named(text, b"first", first, &[])?;
    put_named(text, b"last", last, &[])?;
    text.extend_from_slice(b"end\n")
}

/// The printed lines of the diagram.
#[tactic(auto, unfolding(crate::specs::Rows::rows_of))]
fn printed(alloc: Global, p: &Parsed) -> Result<Text, Memory>
    ensures { IfOk result (λ text. text ≡ row_texts (rows_of p.now)) }
{
    let mut text = Text::copy(alloc, b"nego 1\n")?;
    put_agents(&mut text, p.agents.as_slice())?;
    put_atoms(&mut text, p.atoms.as_slice())?;
    put_ends(&mut text, &p.first, &p.last)?;
    Ok(text)
}

/// The diagram's printed form: its lines in turn, without comments, one blank between two words. A name plus 0 is
/// printed as the name.
pub fn print_diagram(alloc: Global, p: &Parsed) -> Result<Text, Memory>
    ensures text { IfOk result (λ text. text ≡ printed_diagram p.now) }
    // What is printed spells the diagram, at other places.
    ensures spelled { IsPrintableDiagram p.now → IfOk result (λ t. (q : Parsed) × Spells t q × (content_of q ≡ content_of p.now)) }
{
    printed(alloc, p)
}
