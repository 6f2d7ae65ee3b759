ghost use Rattle.change_words.specs.Laws.{WordsTellTxns};

/// Words say one transaction at most, and three words one change.
pub fn words_tell_txns()
    ensures { WordsTellTxns }
{}
