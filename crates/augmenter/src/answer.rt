// What the search for offers comes to.
use refutation_check::Part;

/// The cells that an instance can be given, with the searches for them in order.
#[derive(Drop)]
pub enum Offers {
    /// All of the cells, in rising order. Each other cell outside the instance is refuted by a part.
    Exactly { cells: Vec<u32>, parts: Vec<Part> },
    /// The budget was spent, and the last part goes on.
    Spent { parts: Vec<Part> },
}
