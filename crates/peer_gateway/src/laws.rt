//! Laws of rows, for the callers' proofs: to call one is to know it.

ghost use Rattle.std.specs.Prelude.{◌≡◌, ◌↔◌, ◌≤ℤ◌, ℕ, ℤ, List, [], Some, None, slice_get, false};
ghost use Rattle.peer_gateway.specs.Answers.{comes_before, first_of, least_in};
ghost use Rattle.peer_gateway.specs.Happenings.{Happening, Has, IsRowAfter, rows_of};
ghost use Rattle.peer_gateway.specs.declared.row.PeerRow.{PeerRow};

/// The rows are just the sightings that nothing later ends.
pub fn rows_are_what_nothing_ended()
    ensures { (life : List Happening) (row : PeerRow) → Has (rows_of life) row ↔ IsRowAfter life row }
{}

/// No two rows have the same gate and id: a row is found again by them.
pub fn no_row_twice()
    ensures { (life : List Happening) (j k : ℕ) (a b : PeerRow)
        → slice_get (rows_of life) j ≡ Some a → slice_get (rows_of life) k ≡ Some b
        → a.gate ≡ b.gate → a.id ≡ b.id → j ≡ k }
{}

/// The first of some rows is one of them that none of them comes before. There is none just where there are no rows.
pub fn no_row_comes_before_the_first()
    ensures first { (rows : List PeerRow) (row : PeerRow) → first_of rows ≡ Some row
        → Has rows row × ((other : PeerRow) → Has rows other → comes_before other row ≡ false) }
    ensures none { (rows : List PeerRow) → first_of rows ≡ None ↔ rows ≡ [] }
{}

/// The least of some numbers is one of them that none of them is less than. There is none just where there are no numbers.
pub fn no_number_is_less_than_the_least()
    ensures least { (numbers : List ℤ) (least : ℤ) → least_in numbers ≡ Some least
        → Has numbers least × ((other : ℤ) → Has numbers other → least ≤ℤ other) }
    ensures none { (numbers : List ℤ) → least_in numbers ≡ None ↔ numbers ≡ [] }
{}
