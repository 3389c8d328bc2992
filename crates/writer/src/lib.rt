// The writer of field cards (document 01); what a card is stands in the crate card.
//   writer   from p, n, kind and the words to a card
#![tactic(auto)]

pub mod writer;
