//! What a desk makes of a request: as it is asked for, where its book bears it out, and else in its
//! safe form.
ghost use Rattle.std.specs.Prelude.{◌≡◌, Bool, IfErr, IfOk, Ok, OnErr};
ghost use Rattle.session_client.specs.Desks.{IsFirst};
ghost use Rattle.desk_book.specs.Books.{first_book};
ghost use Rattle.desk_book.specs.Borne.{IsForm, IsPut};
ghost use Rattle.desk_book.specs.Made.{made_in};
ghost use Rattle.desk_book.specs.declared.forms.Form.{Form};
ghost use Rattle.desk_book.specs.declared.made.Made.TheVariants as made;
ghost use Rattle.bound_desk.specs.Safe.{is_raise, IsSafelyMade, MadeBelongs};

use crate::bound_books::BoundBook;
use bound_hub::BoundName;
use desk_book::Made;
use rows_model::Sid;
use session_client::Wanted;

impl<H: BoundName> BoundBook<H> {
    /// What is made of a session's request: what its form by the book says, which is safe. The first get or
    /// quarantine of a session that has just begun is made as it is asked for. Memory is asked
    /// for a release with a new value alone; for want of it the request comes back.
    pub fn made(&self, who: Sid, request: Wanted) -> Result<Made, Wanted>
        ensures form { IfOk result (λ made. (found : Form)
            × IsForm self.now.book.book who request found × (made ≡ made_in found who request)) }
        ensures safe { IfOk result (IsSafelyMade self.now.book.book who) }
        ensures belongs { IfOk result (MadeBelongs who request) }
        ensures first { (writes : Bool) → self.now.book.book ≡ first_book who writes
            → IsFirst writes request → result ≡ Ok (made.One request) }
        ensures memory { OnErr result (IsPut request) }
        ensures back { IfErr result (λ back. back ≡ request) }
    {
        match self.book.form(who, &request) {
            Ok(form) => Ok(form.make(who, request)),
            Err(_) => Err(request),
        }
    }
}

/// Whether the request is to raise a quarantine.
pub(crate) fn is_raise(request: &Wanted) -> bool
    ensures { result ≡ is_raise request.now }
{
    matches!(request, Wanted::Raise { .. })
}
