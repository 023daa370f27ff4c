//! The program of a rule along some vectors: its patterns and its distinct rows.
use dd_values::Items;

/// A linear inequality, with one coefficient for each column. Each column stands for a number. The row says that the sum of
/// these numbers, each times its coefficient, is at most `bound`. Column 0 is a lower bound for what each position holds in the
/// end. After it there is a column for each vector and pattern: the amount that a position with this pattern around it gives
/// along the vector. These columns are listed vector by vector, and within each vector, pattern by pattern.
#[derive(Debug, Drop)]
pub struct Row {
    pub coefficients: Items<i64>,
    pub bound: u64,
}

/// The program of a rule along some vectors. `patterns` has the patterns that the admissible fillings of the ground show, each
/// once, in lexicographic order. A pattern is given by its symbols in cell order (by z, then y, then x, then the node). The
/// first row says that column 0 is at most the number of nodes times the greatest weight of a symbol. The rows that the
/// fillings require follow, in the order of the fillings. Each row is listed once, where it is first seen.
#[derive(Debug, Drop)]
pub struct Rows {
    pub patterns: Items<Items<u32>>,
    pub rows: Items<Row>,
}
