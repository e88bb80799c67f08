// Numbers as they are spelt on a line, parted by spaces.
use l2_cnf::Lit;
use std::alloc::{AllocError, Global};

/// The literals of some whole numbers.
pub fn literals(alloc: Global, text: &str) -> Result<Vec<Lit>, AllocError> {
    let mut clause = Vec::new(alloc);
    for word in text.split_whitespace() {
        let number: i64 = word.parse().unwrap_or(0);
        let var = number.unsigned_abs();
        if var >= 1 && var < 1 << 62 {
            clause.push(Lit::new(var, number > 0))?;
        }
    }
    Ok(clause)
}

/// The numbers of some clauses.
pub fn hints(alloc: Global, text: &str) -> Result<Vec<u64>, AllocError> {
    let mut all = Vec::new(alloc);
    for word in text.split_whitespace() {
        all.push(word.parse().unwrap_or(0))?;
    }
    Ok(all)
}
