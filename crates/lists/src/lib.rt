// What the screening asks of a record's words and of the entries of its lists without a table: for programmes and contents that is all.
//
// A record is named by the index of its first word, beside the sheet, as in words.rt. Screen has a struct of the two for objects, whose
// words several of its functions read. Programmes and contents are each read in one function, and value sets in one of screen: a struct
// for them would have methods that hand on to the functions of words.rt, for nine calls. The list of languages stands beside the sheet: it
// is no part of it, and each of the two is lent on its own.
#![tactic(auto)]

pub mod entries;
pub mod speech;
pub mod words;
