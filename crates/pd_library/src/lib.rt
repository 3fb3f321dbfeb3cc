//! What is known of the files of abstractions, in the order in which it was learned, and drafts of them.
//!
//! `answer` is what is known of a name; `learn` notes what was found under a name of which nothing was known,
//! `publish` makes a document what is found under a name, and `cut_back` forgets all names but the first ones.
//! Nothing above calls `publish` yet. All else stays, and after want of memory all is as before.
//!
//! `Drafts` are documents under names, apart from the files: `draft` finds one, `put_draft` puts one in place of the
//! former, `end_draft` takes one out; all others stay in their order. Nothing above has drafts yet.
//!
//! Definitions: `Files`, `Drafts`; `Codes` helps.
#![tactic(auto)]

mod answers;
mod drafts;
mod files;

pub use answers::Answer;
pub use drafts::Drafts;
pub use files::Files;
