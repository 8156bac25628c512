// How many notes, and how many endings, an answer has at most.
pub const LIST: usize = 65;
