// The phrase list as bytes: the words of the steps, and those of the answers. phrases/specs/Phrases.antt has the same
// list, and the contracts of `forms` and `reasons` hold the two together. Inner layer: callers see to the room and to
// places in the lists.
#![tactic(auto, using(text::proofs::Laws::pages))]

ghost use Rattle.std.specs.Prelude.{true, ◌≡◌, ◌<◌};
ghost use Rattle.text.specs.Text.{HasRoom, Puts};
ghost use Rattle.phrases.specs.Phrases.{is_listed};
ghost use Rattle.phrases.specs.Line.{lead_text, trail_text, reason_text};
ghost use Rattle.wording.specs.Tables.{HoldsForms, HoldsReasons};

use text::Page;

// A text of the list in a table: the first `length` of these bytes, behind which spaces fill the row. No reference: the
// archive for C has no data that is written, and where it lies a reference would be written when it is loaded.
struct Words {
    length: usize,
    bytes: [u8; 69],
}

impl Words {
    ghost use Rattle.wording.specs.Tables.{words_in};

    fn text(&self) -> &[u8]
        ensures { result.now ≡ words_in self.now }
    {
        let n = self.length.min(69);
        &self.bytes[..n]
    }
}

// The steps that a phrase is for: the first `count` of these numbers.
#[derive(Clone, Copy)]
struct Steps {
    count: usize,
    list: [usize; 17],
}

impl Steps {
    ghost use Rattle.wording.specs.Tables.{steps_in};

    fn numbers(&self) -> &[usize]
        ensures { result.now ≡ steps_in self.now }
    {
        let n = self.count.min(17);
        &self.list[..n]
    }
}

// A step in words: what stands before the number of its board, and what after it.
struct Form {
    lead: Words,
    trail: Words,
}

// The steps by number, from 0 on, and at 16 what is no step.
#[rattlefmt::skip]
static FORMS: [Form; 17] = [
    Form {
        lead: Words { length: 19, bytes: *b"opening with board                                                   " },
        trail: Words { length: 0, bytes: *b"                                                                     " },
    },
    Form {
        lead: Words { length: 6, bytes: *b"board                                                                " },
        trail: Words { length: 15, bytes: *b" appends value                                                       " },
    },
    Form {
        lead: Words { length: 6, bytes: *b"board                                                                " },
        trail: Words { length: 16, bytes: *b" gives a receipt                                                     " },
    },
    Form {
        lead: Words { length: 10, bytes: *b"add board                                                            " },
        trail: Words { length: 0, bytes: *b"                                                                     " },
    },
    Form {
        lead: Words { length: 13, bytes: *b"remove board                                                         " },
        trail: Words { length: 0, bytes: *b"                                                                     " },
    },
    Form {
        lead: Words { length: 13, bytes: *b"change leader                                                        " },
        trail: Words { length: 0, bytes: *b"                                                                     " },
    },
    Form {
        lead: Words { length: 6, bytes: *b"board                                                                " },
        trail: Words { length: 11, bytes: *b" takes news                                                          " },
    },
    Form {
        lead: Words { length: 6, bytes: *b"board                                                                " },
        trail: Words { length: 6, bytes: *b" joins                                                               " },
    },
    Form {
        lead: Words { length: 6, bytes: *b"board                                                                " },
        trail: Words { length: 18, bytes: *b" receives an entry                                                   " },
    },
    Form {
        lead: Words { length: 6, bytes: *b"board                                                                " },
        trail: Words { length: 14, bytes: *b" counts board                                                        " },
    },
    Form {
        lead: Words { length: 21, bytes: *b"controller takes news                                                " },
        trail: Words { length: 0, bytes: *b"                                                                     " },
    },
    Form {
        lead: Words { length: 23, bytes: *b"controller reads leader                                              " },
        trail: Words { length: 0, bytes: *b"                                                                     " },
    },
    Form {
        lead: Words { length: 23, bytes: *b"controller reads board                                               " },
        trail: Words { length: 0, bytes: *b"                                                                     " },
    },
    Form {
        lead: Words { length: 10, bytes: *b"set normal                                                           " },
        trail: Words { length: 0, bytes: *b"                                                                     " },
    },
    Form {
        lead: Words { length: 23, bytes: *b"controller hears board                                               " },
        trail: Words { length: 0, bytes: *b"                                                                     " },
    },
    Form {
        lead: Words { length: 14, bytes: *b"install board                                                        " },
        trail: Words { length: 0, bytes: *b"                                                                     " },
    },
    Form {
        lead: Words { length: 6, bytes: *b"record                                                               " },
        trail: Words { length: 0, bytes: *b"                                                                     " },
    },
];

#[tactic(auto, unfolding(crate::specs::Tables::HoldsForms))]
fn forms() -> &'static [Form]
    ensures { HoldsForms result.now }
{
    &FORMS
}

// A phrase: its answer, the steps that it is for, its words. Answers and steps stay numbers, as C and a sheet have
// them: any may come in, and not each refusal is on the list.
struct Reason {
    answer: usize,
    steps: Steps,
    words: Words,
}

impl Reason {
    ghost use Rattle.phrases.specs.Phrases.{has};
    ghost use Rattle.wording.specs.Tables.{steps_in};
    ghost use Rattle.std.specs.Prelude.{◌&&◌, eqb};

    // Whether it is for the answer a to the step k.
    fn is_for(&self, k: usize, a: usize) -> bool
        ensures { result ≡ (eqb a self.now.answer && has k (steps_in self.now.steps)) }
    {
        self.answer == a && self.steps.numbers().contains(&k)
    }
}

// What is no step: a malformed record. A number among the steps, as `no_step` and `place` of phrases/specs/Line.antt
// have it.
pub const NO_STEP: usize = 16;

const ANY: Steps = Steps {
    count: 17,
    list: [
        0, 1, 2, 3, 4, 5, 6, 7, 8, 9, 10, 11, 12, 13, 14, 15, NO_STEP,
    ],
};

// One, two or three steps.
macro_rules! steps {
    ($a:expr) => {
        steps!($a, 0, 0; 1)
    };
    ($a:expr, $b:expr) => {
        steps!($a, $b, 0; 2)
    };
    ($a:expr, $b:expr, $c:expr) => {
        steps!($a, $b, $c; 3)
    };
    ($a:expr, $b:expr, $c:expr; $n:expr) => {
        Steps {
            count: $n,
            list: [$a, $b, $c, 0, 0, 0, 0, 0, 0, 0, 0, 0, 0, 0, 0, 0, 0],
        }
    };
}

// The phrases, in the order of their answers: those of single steps stand before the one for any.
#[rattlefmt::skip]
static REASONS: [Reason; 57] = [
    Reason { answer: 0, steps: ANY, words: Words { length: 8, bytes: *b"accepted                                                             " } },
    Reason { answer: 1, steps: steps!(0), words: Words { length: 40, bytes: *b"an opening stands first and nowhere else                             " } },
    Reason { answer: 1, steps: steps!(NO_STEP), words: Words { length: 29, bytes: *b"these eight bytes are no step                                        " } },
    Reason { answer: 1, steps: ANY, words: Words { length: 41, bytes: *b"the row or the memory for it is not valid                            " } },
    Reason { answer: 2, steps: ANY, words: Words { length: 48, bytes: *b"the sheet has a wrong length or no valid opening                     " } },
    Reason { answer: 3, steps: ANY, words: Words { length: 39, bytes: *b"the text is longer than the room for it                              " } },
    Reason { answer: 4, steps: steps!(3, 4), words: Words { length: 24, bytes: *b"a leader is being chosen                                             " } },
    Reason { answer: 4, steps: steps!(5), words: Words { length: 35, bytes: *b"the registry's status is not normal                                  " } },
    Reason { answer: 4, steps: ANY, words: Words { length: 39, bytes: *b"the registry's status does not allow it                              " } },
    Reason { answer: 5, steps: steps!(3), words: Words { length: 29, bytes: *b"the board is a member already                                        " } },
    Reason { answer: 5, steps: steps!(4), words: Words { length: 25, bytes: *b"the board is not a member                                            " } },
    Reason { answer: 5, steps: steps!(7), words: Words { length: 34, bytes: *b"it is not a member in its own view                                   " } },
    Reason { answer: 5, steps: steps!(8), words: Words { length: 57, bytes: *b"its own view or its leader's does not have it as a member            " } },
    Reason { answer: 5, steps: steps!(9), words: Words { length: 49, bytes: *b"the counted board is not a member in its own view                    " } },
    Reason { answer: 5, steps: steps!(12, 14, 15), words: Words { length: 50, bytes: *b"the board is not a member in the controller's view                   " } },
    Reason { answer: 5, steps: ANY, words: Words { length: 28, bytes: *b"membership does not allow it                                         " } },
    Reason { answer: 6, steps: steps!(4), words: Words { length: 23, bytes: *b"the board is the leader                                              " } },
    Reason { answer: 6, steps: steps!(5), words: Words { length: 32, bytes: *b"there are fewer than two members                                     " } },
    Reason { answer: 6, steps: steps!(12), words: Words { length: 48, bytes: *b"the board is the leader in the controller's view                     " } },
    Reason { answer: 6, steps: ANY, words: Words { length: 28, bytes: *b"the leader does not allow it                                         " } },
    Reason { answer: 7, steps: ANY, words: Words { length: 33, bytes: *b"the registry's epochs are used up                                    " } },
    Reason { answer: 8, steps: steps!(1, 2), words: Words { length: 36, bytes: *b"it is not the leader in its own view                                 " } },
    Reason { answer: 8, steps: steps!(9), words: Words { length: 52, bytes: *b"the counting board is not the leader in its own view                 " } },
    Reason { answer: 8, steps: ANY, words: Words { length: 41, bytes: *b"a board is not the leader in its own view                            " } },
    Reason { answer: 9, steps: steps!(7, 8), words: Words { length: 25, bytes: *b"it follows no other board                                            " } },
    Reason { answer: 9, steps: ANY, words: Words { length: 30, bytes: *b"a board follows no other board                                       " } },
    Reason { answer: 10, steps: steps!(7, 8), words: Words { length: 35, bytes: *b"its leader has another leader epoch                                  " } },
    Reason { answer: 10, steps: steps!(9), words: Words { length: 43, bytes: *b"the two boards have different leader epochs                          " } },
    Reason { answer: 10, steps: ANY, words: Words { length: 24, bytes: *b"the leader epochs differ                                             " } },
    Reason { answer: 11, steps: steps!(7), words: Words { length: 44, bytes: *b"it has joined under its leader epoch already                         " } },
    Reason { answer: 11, steps: steps!(8), words: Words { length: 44, bytes: *b"it has not joined under its leader epoch yet                         " } },
    Reason { answer: 11, steps: steps!(9), words: Words { length: 59, bytes: *b"the counted board has not joined under its leader epoch yet          " } },
    Reason { answer: 11, steps: steps!(12), words: Words { length: 48, bytes: *b"the board last joined under another leader epoch                     " } },
    Reason { answer: 11, steps: ANY, words: Words { length: 25, bytes: *b"joining does not allow it                                            " } },
    Reason { answer: 12, steps: steps!(2), words: Words { length: 39, bytes: *b"its log is not longer than the receipts                              " } },
    Reason { answer: 12, steps: steps!(6, 10), words: Words { length: 30, bytes: *b"it has the newest news already                                       " } },
    Reason { answer: 12, steps: steps!(8), words: Words { length: 40, bytes: *b"its log is not shorter than its leader's                             " } },
    Reason { answer: 12, steps: steps!(9), words: Words { length: 52, bytes: *b"the counted board's log is not longer than the count                 " } },
    Reason { answer: 12, steps: steps!(12, 14), words: Words { length: 47, bytes: *b"the board's log is not longer than heard before                      " } },
    Reason { answer: 12, steps: ANY, words: Words { length: 14, bytes: *b"nothing is due                                                       " } },
    Reason { answer: 13, steps: steps!(1), words: Words { length: 15, bytes: *b"its log is full                                                      " } },
    Reason { answer: 13, steps: ANY, words: Words { length: 13, bytes: *b"a log is full                                                        " } },
    Reason { answer: 14, steps: steps!(2), words: Words { length: 58, bytes: *b"its counts show no majority of members with the next entry           " } },
    Reason { answer: 14, steps: steps!(13), words: Words { length: 69, bytes: *b"no majority of members is heard at the leader's heard length or above" } },
    Reason { answer: 14, steps: steps!(15), words: Words { length: 65, bytes: *b"no majority that has the board is heard with none ranked above it    " } },
    Reason { answer: 14, steps: ANY, words: Words { length: 27, bytes: *b"there is no majority for it                                          " } },
    Reason { answer: 15, steps: steps!(11), words: Words { length: 37, bytes: *b"the controller is not at stage leader                                " } },
    Reason { answer: 15, steps: steps!(12, 13), words: Words { length: 37, bytes: *b"the controller is not at stage boards                                " } },
    Reason { answer: 15, steps: steps!(14, 15), words: Words { length: 39, bytes: *b"the controller is not at stage choosing                              " } },
    Reason { answer: 15, steps: ANY, words: Words { length: 34, bytes: *b"the controller is at another stage                                   " } },
    Reason { answer: 16, steps: steps!(11), words: Words { length: 48, bytes: *b"the leader board's epoch is not the controller's                     " } },
    Reason { answer: 16, steps: steps!(14), words: Words { length: 41, bytes: *b"the board's epoch is not the controller's                            " } },
    Reason { answer: 16, steps: steps!(13, 15), words: Words { length: 44, bytes: *b"the controller's epoch is not the registry's                         " } },
    Reason { answer: 16, steps: ANY, words: Words { length: 17, bytes: *b"the epochs differ                                                    " } },
    Reason { answer: 17, steps: ANY, words: Words { length: 28, bytes: *b"the image has a wrong length                                         " } },
    Reason { answer: 18, steps: ANY, words: Words { length: 34, bytes: *b"a number in the image is not valid                                   " } },
    Reason { answer: 19, steps: ANY, words: Words { length: 43, bytes: *b"the records in the image are wrongly linked                          " } },
];

#[tactic(auto, unfolding(crate::specs::Tables::HoldsReasons))]
fn reasons() -> &'static [Reason]
    ensures { HoldsReasons result.now }
{
    &REASONS
}

// Writes what stands before the board of the form k. Inner layer: callers see to the room, and that k is a form.
#[tactic(auto, using(text::proofs::Laws::pages, crate::proofs::Tables::form_words))]
pub fn put_lead(page: &mut Page<'_>, k: usize)
    requires form { k < 17 }
    requires room { HasRoom page.old (lead_text k) }
    ensures { Puts page.old (lead_text k) page.new }
{
    page.put_bytes(forms()[k].lead.text());
}

// Writes what stands after it: the same of the other field; each has one line. Inner layer: callers see to the room,
// and that k is a form.
#[tactic(auto, using(text::proofs::Laws::pages, crate::proofs::Tables::form_words))]
pub fn put_trail(page: &mut Page<'_>, k: usize)
    requires form { k < 17 }
    requires room { HasRoom page.old (trail_text k) }
    ensures { Puts page.old (trail_text k) page.new }
{
    page.put_bytes(forms()[k].trail.text());
}

// The words of the first phrase that is for the answer a to the step k. (Here and below what is asked of the two stays
// in the clauses: `reason_text` and `is_listed` are of numbers, and a type of both would be made anew for each record.)
fn words_for(k: usize, a: usize) -> &'static [u8]
    requires step { k < 17 }
    requires listed { is_listed a ≡ true }
    ensures { result.now ≡ reason_text k a }
{
    reasons()
        .iter()
        .find(|r| r.is_for(k, a))
        .unwrap()
        .words
        .text()
}

// Writes the phrase of the answer a to the step k. Inner layer: callers see to the room, to the step, and that the
// answer is on the list.
pub fn put_reason(page: &mut Page<'_>, k: usize, a: usize)
    requires step { k < 17 }
    requires listed { is_listed a ≡ true }
    requires room { HasRoom page.old (reason_text k a) }
    ensures { Puts page.old (reason_text k a) page.new }
{
    page.put_bytes(words_for(k, a));
}

// Whether an answer is on the list.
pub fn is_listed(a: usize) -> bool
    ensures { result ≡ is_listed a }
{
    reasons().iter().any(|r| r.answer == a)
}
