// Takes a file: its table of contents and its length, before anything is read of its records.
ghost use Rattle.std.specs.Prelude.{◌≡◌, ℕ, ◌+◌, ◌*◌, ◌<◌, ◌≤◌, true, length, is_ok, IfOk, MatchResult};
ghost use Rattle.std.specs.Result.{result_err};
ghost use Rattle.recipe.specs.Bytes.{body_in, contents_in};
ghost use Rattle.recipe.specs.Format.{Legal};
ghost use Rattle.recipe.specs.Offence.{first_offence, ends, count_tests, place_tests, take_tests};

use crate::contents::{Body, Contents};
use crate::records::word;
use crate::{Draft, Layout, Refusal};

impl Body {
    // An entry of the table of contents, by its number.
    fn read(file: &[u8], entry: usize) -> Body
        requires { (4 * entry + 3 < length file.now) × (entry < 4) }
        ensures { result ≡ body_in file.now entry }
    {
        let at = 4 * entry;
        Body {
            place: word(file, at),
            count: word(file, at + 2),
        }
    }

    // Where the body ends, if its records are so wide.
    fn end(&self, wide: usize) -> usize
        requires { wide ≤ 32 }
        ensures { result ≡ ends wide self.now }
    {
        usize::from(self.place) + wide * usize::from(self.count)
    }
}

impl Contents {
    fn read(file: &[u8]) -> Contents
        requires { 16 ≤ length file.now }
        ensures { result ≡ contents_in file.now }
    {
        Contents {
            methods: Body::read(file, 0),
            nodes: Body::read(file, 1),
            edges: Body::read(file, 2),
            rows: Body::read(file, 3),
        }
    }

    // Whether each count lies within its limits.
    #[tactic(auto, using(std::proofs::lemmas::Bool::Decides::nat_tests), unfolding(crate::specs::Offence::first_offence))]
    fn check_counts(&self) -> Result<(), Refusal>
        ensures { result_err result ≡ first_offence (count_tests self.now) }
    {
        if !(1..=256).contains(&self.methods.count) {
            return Err(Refusal::Miscounted { entry: 0 });
        }
        if !(1..=1024).contains(&self.nodes.count) {
            return Err(Refusal::Miscounted { entry: 1 });
        }
        if self.edges.count > 4096 {
            return Err(Refusal::Miscounted { entry: 2 });
        }
        if self.rows.count > 16 {
            return Err(Refusal::Miscounted { entry: 3 });
        }
        Ok(())
    }

    // Whether the bodies follow each other without gaps to the end of the file.
    #[tactic(auto, using(std::proofs::lemmas::Bool::Decides::nat_tests), unfolding(crate::specs::Offence::first_offence))]
    fn check_places(&self, len: usize) -> Result<(), Refusal>
        ensures { result_err result ≡ first_offence (place_tests self.now len) }
    {
        if self.methods.place != 16 {
            return Err(Refusal::Misplaced { entry: 0 });
        }
        if usize::from(self.nodes.place) != self.methods.end(4) {
            return Err(Refusal::Misplaced { entry: 1 });
        }
        if usize::from(self.edges.place) != self.nodes.end(8) {
            return Err(Refusal::Misplaced { entry: 2 });
        }
        if usize::from(self.rows.place) != self.edges.end(4) {
            return Err(Refusal::Misplaced { entry: 3 });
        }
        if len != self.rows.end(32) {
            return Err(Refusal::Misplaced { entry: 4 });
        }
        Ok(())
    }
}

impl<'a> Layout<'a> {
    // The layout of a file, if its table of contents and its length are right.
    pub(crate) fn read(file: &'a [u8]) -> Result<Layout<'a>, Refusal>
        ensures answer { result_err result ≡ first_offence (take_tests file.now) }
        ensures held { IfOk result (λ l. l.file.now ≡ file.now) }
    {
        if file.len() < 16 {
            return Err(Refusal::Misplaced { entry: 4 });
        }
        let contents = Contents::read(file);
        contents.check_counts()?;
        contents.check_places(file.len())?;
        Ok(Layout { file, contents })
    }
}

// Fills the draft with the file, if its table of contents and its length are right; else leaves it.
pub fn take<'a>(file: &'a [u8], draft: &mut Draft<'a>) -> Result<(), Refusal>
    ensures answer { result_err result ≡ first_offence (take_tests file.now) }
    ensures filled { MatchResult result (λ _. draft.new.layout.file.now ≡ file.now) (λ _. draft.new ≡ draft.old) }
    ensures legal { Legal file.now → is_ok result ≡ true }
{
    *draft = Draft {
        layout: Layout::read(file)?,
    };
    Ok(())
}
