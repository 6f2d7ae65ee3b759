// The draws from which the plan of a session comes.
ghost use Rattle.std.specs.Prelude.{◌≡◌, ◌≤◌, ◌∷◌};
ghost use Rattle.run_inputs.specs.Loads.{after_draws, draws_after, kind_drawn, mode_drawn, member_drawn, other_drawn};

use lease_table::Mode;
use rand_pcg::Lcg64Xsh32;
use rand_pcg::rand_core::utils::NextWord;
use rows_model::Kind;

/// The four draws of a session, in their order.
#[derive(Clone, Copy)]
pub struct Draws {
    /// What the session does.
    pub roll: u32,
    /// Its first member.
    pub first: u32,
    /// Its second member.
    pub second: u32,
    /// What kind of key it reads, or in which mode it writes.
    pub manner: u32,
}

impl Draws {
    /// The next four draws.
    pub(crate) fn next(generator: &mut Lcg64Xsh32) -> Draws
        ensures draws { result ≡ draws_after 0 generator.old }
        ensures left { generator.new ≡ after_draws 4 generator.old }
    {
        let roll = generator.next_word();
        let first = generator.next_word();
        let second = generator.next_word();
        let manner = generator.next_word();
        Draws {
            roll,
            first,
            second,
            manner,
        }
    }

    /// The first member, of so many.
    pub(crate) fn member(self, members: u32) -> u32
        requires some { 1 ≤ members }
        requires few { members ≤ 100000 }
        ensures { result ≡ member_drawn members self }
    {
        1 + self.first % members
    }

    /// The second member, of so many: one of the four behind the first.
    pub(crate) fn other(self, members: u32) -> u32
        requires some { 1 ≤ members }
        requires few { members ≤ 100000 }
        ensures { result ≡ other_drawn members self }
    {
        1 + (self.member(members) + self.second % 4) % members
    }

    /// The kind of the key that a reader gets.
    pub(crate) fn kind(self) -> Kind
        ensures { result ≡ kind_drawn self.manner }
    {
        match self.manner % 5 {
            0 => Kind::Profile,
            1 => Kind::Friends,
            2 => Kind::Pending,
            3 => Kind::NFriends,
            _ => Kind::NPending,
        }
    }

    /// The mode of a writer.
    pub(crate) fn mode(self) -> Mode
        ensures { result ≡ mode_drawn self.manner }
    {
        match self.manner % 3 {
            0 => Mode::Invalidate,
            1 => Mode::Refresh,
            _ => Mode::Delta,
        }
    }
}
