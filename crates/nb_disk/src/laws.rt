//! Laws of what a drive answers: each is a function that does nothing, whose contract is the law.

ghost use Rattle.std.specs.Prelude.{◌≡◌, ◌∷◌, ◌++◌, [], ℕ, List, Some, false, option_map};
ghost use Rattle.nb_terms.specs.declared.cause.Cause.{Cause};
ghost use Rattle.nb_iscsipdu.specs.Answers.{AnswerParts};
ghost use Rattle.nb_iscsipdu.specs.PduTexts.{pdu_text};
ghost use Rattle.nb_disk.specs.Histories.{DiskCall, DiskReading, SessionNumbers, asked, reading};
ghost use Rattle.nb_disk.specs.DiskAnswers.{disk_answer, pdu_answer};
ghost use Rattle.nb_disk.specs.DiskEndings.{DiskEnding};
ghost use Rattle.nb_disk.specs.DiskStands.{DiskStands};
ghost use Rattle.nb_disk.specs.Steps.{KeptNumbers, work_is_over, has_work, read_text, kept_asked};

/// A PDU ends the session exactly where a cause stands in what came: `DiskEnding` has what stands at each.
pub fn ends_for_a_cause()
    ensures caused { (o : SessionNumbers) (r : DiskReading) (rec : ℕ) (a : AnswerParts) (cause : Cause) → (pdu_answer o r rec a).over ≡ Some cause → DiskEnding o r rec a cause }
    ensures ends { (o : SessionNumbers) (r : DiskReading) (rec : ℕ) (a : AnswerParts) (cause : Cause) → DiskEnding o r rec a cause → (pdu_answer o r rec a).over ≡ Some cause }
{}

/// What a drive asks as a source of blocks is what all that came calls for: of a drive that stands for some calls
/// and waits for no answer, `read_text` is the text of the read's command, and `kept_asked` stands for the read too.
pub fn blocks_are_asked_as_history_says()
    ensures text { (o : SessionNumbers) (calls : List DiskCall) (k : KeptNumbers) (lba n : ℕ) → DiskStands o calls k → work_is_over k.work ≡ false → has_work k.work ≡ false
        → Some (read_text k lba n) ≡ option_map pdu_text (disk_answer o (reading o calls) (asked lba n)).put }
    ensures stands { (o : SessionNumbers) (calls : List DiskCall) (k : KeptNumbers) (lba n : ℕ) → DiskStands o calls k → work_is_over k.work ≡ false → has_work k.work ≡ false
        → DiskStands o (calls ++ asked lba n ∷ []) (kept_asked k lba n) }
{}
