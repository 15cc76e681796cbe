//! Laws of certificates, of their replay and of the texts of summaries. Each function does nothing; its clause is the law.

ghost use Rattle.nego_cert.specs.Laws.{AcceptedTell, LeadingAreAccepted, PrintedAreShort, PrintedAreSpelled, SpelledAreShort, VerdictsAreOne};
ghost use Rattle.nego_cert.specs.Lines.{rows_of};
ghost use Rattle.nego_cert.specs.SummaryLaws.{AcceptedArePrintable, PrintedSummariesAreShort, PrintedSummariesAreSpelled, SpelledSummariesArePrintable};
ghost use Rattle.nego_cert.specs.SummaryTable.{lines_of, summary_lines};
ghost use Rattle.nego_cert.specs.Table.{certificate_lines};
ghost use Rattle.nego_cert.specs.TextLaws.{SpellOneOrHaveAFault};

/// A text spells one certificate or has one first fault, never both.
pub fn texts_spell_or_have_a_fault()
    ensures { SpellOneOrHaveAFault certificate_lines rows_of }
{}

/// The printed text of uses spells a certificate of just these uses, where their numbers have six digits at most, as
/// those of every text have.
pub fn printed_certificates_are_spelled()
    ensures spelled { PrintedAreSpelled }
    ensures numbers { SpelledAreShort }
{}

/// A printed line of a use of a diagram's numbers has at most 16 bytes.
pub fn printed_certificates_are_short()
    ensures { PrintedAreShort }
{}

/// A diagram and a certificate have one verdict at most.
pub fn verdicts_are_one()
    ensures { VerdictsAreOne }
{}

/// Where a certificate is accepted, the summary tells the diagram.
pub fn accepted_certificates_tell()
    ensures { AcceptedTell }
{}

/// A certificate of uses that are allowed, one after the other, and leave one atom is accepted with the summary of what
/// they lead to.
pub fn leading_certificates_are_accepted()
    ensures { LeadingAreAccepted }
{}

/// A text spells one summary or has one first fault, never both.
pub fn texts_spell_a_summary_or_have_a_fault()
    ensures { SpellOneOrHaveAFault summary_lines lines_of }
{}

/// The printed text of a summary spells it, where it can be printed, as all those can that texts spell. A printed line has at
/// most 37 bytes.
pub fn printed_summaries_are_spelled()
    ensures spelled { PrintedSummariesAreSpelled }
    ensures printable { SpelledSummariesArePrintable }
    ensures short { PrintedSummariesAreShort }
{}

/// The summary to which an accepted certificate leads can be printed, so that its text is read again as this summary.
pub fn accepted_summaries_are_printable()
    ensures { AcceptedArePrintable }
{}
