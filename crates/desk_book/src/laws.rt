// The law of the book, the clause of a function that does nothing.
ghost use Rattle.desk_book.specs.Laws.{WantsAreBorne};

/// Whatever a session of a plan wants next, the book of its calls bears it out: no request of a session
/// that goes by its plan is made in another form.
pub fn wants_are_borne()
    ensures { WantsAreBorne }
{}
