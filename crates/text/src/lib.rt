// Text in a lent list of bytes. Each function writes from the place `at` on and answers the place
// behind what it wrote, so that a line is one call behind another. Only this repository calls these
// functions, so they state what they require. List and place are no struct: it would hold a `&mut`,
// and each function would need one more clause, that the list is still the same. The digits are
// computed here, since `write!` would need such a struct to write to.
//   bytes         a byte, a list of bytes or of words
//   hexadecimal   bytes in upper-case hexadecimal
//   decimal       numbers in decimal
//   columns       numbers with their sign, right-justified in columns, and blanks
#![tactic(auto)]

pub mod bytes;
pub mod columns;
pub mod decimal;
pub mod hexadecimal;
