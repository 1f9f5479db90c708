//! Laws of the text of certificate files.

ghost use Rattle.std.specs.Prelude.{◌≡◌, ◌++◌, ℕ, List};
ghost use Rattle.tt_family.specs.Ascending.{SameContents};
ghost use Rattle.tt_family.specs.Contents.{Contents};
ghost use Rattle.tt_cert.specs.Families.{HasText, family_text};
ghost use Rattle.tt_cert.specs.Rules.{Fits};
ghost use Rattle.tt_cert.specs.Sections.{Section};
ghost use Rattle.tt_cert.specs.Text.{section_text};
ghost use Rattle.tt_cert.specs.declared.form.Form.{Form};
ghost use Rattle.tt_setting.specs.declared.name.Name.{Name};

/// Shows that no section's text begins another one's: where bytes begin with the texts of two
/// sections that fit one form, the sections are the same, and so are the bytes after their texts.
pub fn no_section_begins_another()
    ensures { (form : Form) (s t : Section) (a b : List ℕ) → Fits form s → Fits form t
        → section_text form s ++ a ≡ section_text form t ++ b → (s ≡ t) × (a ≡ b) }
{}

/// Shows that a text tells one name and one family: where bytes begin with the texts of two names
/// with their families, the names are the same, the families are the same, and so are the bytes
/// after their texts.
pub fn one_family_of_a_text()
    ensures { (form : Form) (n m : Name) (c d : Contents) (a b : List ℕ) → HasText form n c
        → HasText form m d → family_text form n c ++ a ≡ family_text form m d ++ b
        → (n ≡ m) × (c ≡ d) × (a ≡ b) }
{}

/// Shows that a name with a family has one text: two that have the same contexts, whatever their
/// numbers, and the same state at each point, list them in one order.
pub fn one_text_of_a_family()
    ensures { (form : Form) (name : Name) (c d : Contents) → HasText form name c
        → HasText form name d → SameContents c d
        → family_text form name c ≡ family_text form name d }
{}
