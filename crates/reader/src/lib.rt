// The reader of field cards (document 01); what a card is stands in the crate card.
//   reader   from a card to p, n, kind and the words
#![tactic(auto)]

pub mod reader;
