//! What the program says of its words.

/// The answer to `--help`, and where the words name no command.
pub const HELP: &str = "usage: cloudproof COMMAND OPTIONS
  judge       whether evidence convicts the store of a key
  verify      whether the signature of a text verifies under a key
  keygen      writes the public key of a seed
  ask-put     writes a put body, signed by the next leaf of leaves.vault
  ask-get     writes a get request
  accept      judges what the store answered, and keeps its envelope and its content
  audit       whether an epoch is clean; writes evidence where the store is guilty
  replay      runs a script through a new store, and writes the files that it leaves
  certify     writes an operator's key, and the certificate and the seed of one life of a store
  judge-life  whether evidence convicts the life of a certificate, under its operator's key
  forgery     what must have failed where a signature verifies that the key of a seed didn't make
  --help or --version, alone
";

/// The answer to `--version`.
pub const VERSION: &str = "cloudproof 1\n";

// Each command with its usage.
const USAGES: [(&str, &str); 11] = [
    ("judge", "judge --key FILE --evidence FILE"),
    ("verify", "verify --key FILE --text FILE --signature FILE"),
    (
        "keygen",
        "keygen --seed FILE [--height 5|10|15] [--width 1|2|4|8] --out FILE",
    ),
    (
        "ask-put",
        "ask-put --seed FILE --height 5|10|15 --width 1|2|4|8 --store FILE --epoch E --block B --client C --nonce N --version V --content FILE --out FILE",
    ),
    (
        "ask-get",
        "ask-get --store FILE --epoch E --block B --client C --nonce N --out FILE",
    ),
    (
        "accept",
        "accept --store FILE --request FILE --reply FILE --out FILE --content FILE",
    ),
    (
        "audit",
        "audit --key FILE --epoch E --handins FILE --out FILE",
    ),
    (
        "replay",
        "replay --seed FILE --height 5|10|15 --width 1|2|4|8 [--pages N] --script FILE [--by core|shards]",
    ),
    (
        "certify",
        "certify --seed FILE [--top 5|10] [--height 5|10|15] [--width 1|2|4|8] --life N --key FILE --certificate FILE --out FILE",
    ),
    (
        "judge-life",
        "judge-life --key FILE --certificate FILE --evidence FILE",
    ),
    (
        "forgery",
        "forgery --seed FILE --height 5|10|15 --width 1|2|4|8 --signed FILE --text FILE --signature FILE",
    ),
];

/// The usage of the command of this name, if there is one.
pub fn usage_of(name: &str) -> Option<&'static str> {
    for (command, usage) in &USAGES {
        if *command == name {
            return Some(usage);
        }
    }
    None
}
