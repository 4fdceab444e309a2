// What holds of all reports.
ghost use Rattle.std.specs.Prelude.{◌≡◌, ℕ, ◌+◌, ◌↔◌, ◌++◌, ◌∷◌, [], List, length, All, None, Some, true};
ghost use Rattle.tva_base.specs.Printable.{IsLine};
ghost use Rattle.tva_report.specs.declared.differences.Finding.{Finding};
ghost use Rattle.tva_report.specs.Differences.{IsFirstDifference, finding, first_difference};
ghost use Rattle.tva_report.specs.Lines.{first_bad, is_line, report_lines, text_of};

/// The test of a line tells lines.
pub fn lines_pass_their_test()
    ensures { (text : List ℕ) → (is_line text ≡ true) ↔ IsLine text }
{}

/// The text that lines make has no bad line, and has those lines.
pub fn lines_are_read_back()
    ensures good { (lines : List (List ℕ)) → All IsLine lines → first_bad (text_of lines) ≡ None }
    ensures same { (lines : List (List ℕ)) → All IsLine lines → report_lines (text_of lines) ≡ lines }
{}

/// A text without a bad line has lines, and is the text that they make.
pub fn good_texts_are_lines()
    ensures lines { (text : List ℕ) → first_bad text ≡ None → All IsLine (report_lines text) }
    ensures same { (text : List ℕ) → first_bad text ≡ None → text_of (report_lines text) ≡ text }
{}

/// There is a difference exactly where lines differ, and it is the first. Where all of the one stand
/// in front of the other, it is the line behind them.
pub fn difference_is_the_first()
    ensures none { (expected found : List (List ℕ)) → (first_difference expected found ≡ None) ↔ (expected ≡ found) }
    ensures first { (expected found : List (List ℕ)) (f : Finding) → first_difference expected found ≡ Some f → IsFirstDifference f expected found }
    ensures missing { (lines more : List (List ℕ)) (line : List ℕ) → first_difference (lines ++ line ∷ more) lines ≡ Some (finding (1 + length lines) line []) }
    ensures added { (lines more : List (List ℕ)) (line : List ℕ) → first_difference lines (lines ++ line ∷ more) ≡ Some (finding (1 + length lines) [] line) }
{}

/// A text without a bad line is the text of these lines exactly where it has no difference from them.
pub fn report_is_what_is_expected()
    ensures { (report : List ℕ) (lines : List (List ℕ)) → first_bad report ≡ None → All IsLine lines
        → (first_difference lines (report_lines report) ≡ None) ↔ (report ≡ text_of lines) }
{}
