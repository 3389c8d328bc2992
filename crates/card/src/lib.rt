// Field cards (document 01): what a card is (specs/, proofs/), and its layout; the reader and the writer have crates of their own.
//   kind     the kinds of cards, and how many words a card of each carries
//   layout   how the header is laid out, of how many bits the words are, and how long a card is
#![tactic(auto)]

pub mod kind;
pub mod layout;
