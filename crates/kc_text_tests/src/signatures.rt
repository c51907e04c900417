//! What the first bytes of a file, or its name, tell.
use kc_dialect::{Separator, Signature, separator_of_name, signature_of};

/// First bytes of files, and the format that they are the mark of.
const MARKS: [(&[u8], Option<Signature>); 10] = [
    (b"\x1f\x8b\x08\x00", Some(Signature::Gzip)),
    (b"BZh91AY&SY", Some(Signature::Bzip2)),
    (b"\xfd7zXZ\x00\x00", Some(Signature::Xz)),
    (b"\x28\xb5\x2f\xfd\x04", Some(Signature::Zstd)),
    (b"\xff\xfe1\x00 \x00", Some(Signature::Utf16Le)),
    (b"\xfe\xff\x001\x00 ", Some(Signature::Utf16Be)),
    (b"%%MatrixMarket matrix", Some(Signature::MatrixMarket)),
    (b"%%MatrixMarke", None),
    (b"\xef\xbb\xbf1 2", None),
    (b"", None),
];

#[test]
fn marks_of_formats(rt: HostRuntime) {
    for (bytes, signature) in &MARKS {
        assert_eq!(rt; signature_of(bytes), *signature);
    }
}

/// Names of files, and the separator that their ends tell.
const ENDS: [(&[u8], Separator); 4] = [
    (b"graphs/a.csv", Separator::Comma),
    (b"a.tsv", Separator::Tab),
    (b"a.csv.txt", Separator::Blank),
    (b"csv", Separator::Blank),
];

#[test]
fn ends_of_names(rt: HostRuntime) {
    for (name, separator) in &ENDS {
        assert_eq!(rt; separator_of_name(name), *separator);
    }
}
