ghost use Rattle.model.specs.Books.{Meaning};
ghost use Rattle.model.specs.Tables.{plain, home, open_layer};
ghost use Rattle.books.specs.Aims.{PointersWithin};

// In each book here, the type that a pointer kind names is a type of that book. The interface does not ask this of a book, so
// it does nothing but name the fact, and the check asks for its proof.
pub fn pointers_stay_within()
    ensures of_plain { PointersWithin plain }
    ensures of_home { PointersWithin home }
    ensures of_layer { (m : Meaning) → PointersWithin m → PointersWithin (open_layer m) }
{}
