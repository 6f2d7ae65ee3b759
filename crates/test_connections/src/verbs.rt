//! The tables of verbs.
use mc_text::{LeaseVerb, PlainVerb, Verb, VerbRow, lease_verbs, plain_verbs};

const NO_VERBS: [&str; 6] = ["SAR", "sa", "sart", "", "get", "sar\r"];

#[test]
fn finds_verbs_and_no_other_words(rt: HostRuntime) {
    let table = lease_verbs();
    let plain = plain_verbs();
    let sar = VerbRow {
        which: Verb::Lease(LeaseVerb::Sar),
        verb: b"sar",
        fields: 5,
        block: true,
        number: 11,
    };
    assert!(rt; table.find(b"sar") == Some(sar));
    assert!(rt; matches!(table.find(b"quit"), Some(row) if row.number == 14));
    assert!(rt;
        matches!(plain.find(b"cas"), Some(row) if row.which == Verb::Plain(PlainVerb::Cas))
    );
    assert!(rt; plain.find(b"sar") == None);
    for word in NO_VERBS.iter() {
        assert!(rt; table.find(word.as_bytes()) == None, "{word:?}");
    }
}
