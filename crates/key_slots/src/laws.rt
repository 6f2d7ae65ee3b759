// Laws of slots, each the clause of a function that does nothing.
ghost use Rattle.key_slots.specs.Laws.{EachSlotIsOneKeys, GivenSlotsAreOneKeys, FreedSlotsAreNobodys};

/// Where no key has two slots, a slot is a key's exactly where the key has that slot.
pub fn each_slot_is_one_keys()
    ensures { EachSlotIsOneKeys }
{}

/// A slot that is given to a key that had none is that key's. Each other key keeps its slot.
pub fn given_slots_are_one_keys()
    ensures { GivenSlotsAreOneKeys }
{}

/// A slot that is freed is nobody's, and its key has none. Each other key keeps its slot.
pub fn freed_slots_are_nobodys()
    ensures { FreedSlotsAreNobodys }
{}
