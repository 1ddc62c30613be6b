//! Places, folders and names of files.

use super::*;
use hex::FromHex;
use std::test::Fail;
use sw_types::{Name, Stamp};

#[test]
fn reads_what_it_prints(rt: HostRuntime) -> Result<(), Fail> {
    let hash = <[u8; 16] as FromHex>::from_hex("900150983cd24fb0d6963f7d28e17f72")?;
    let cases = [
        (0, 0, "objects/0/f72/900150983cd24fb0d6963f7d28e17f72"),
        (4, 9, "objects/9/f72/900150983cd24fb0d6963f7d28e17f72"),
        (
            16,
            36_865,
            "objects/36865/f72/900150983cd24fb0d6963f7d28e17f72",
        ),
    ];
    for (power, part, folder) in cases {
        assert!(rt; power <= 16);
        let place = place_of(hash, power);
        assert_eq!(rt; place, Place::new(part, hash));
        assert_eq!(rt; (place.part(), place.hash()), (part, hash));
        assert_eq!(rt; place.folder(rt.alloc())?.as_str(), folder);
        assert_eq!(rt; read_folder(folder, power), Some(place));
    }
    Ok(())
}

#[test]
fn refuses_what_it_does_not_print(rt: HostRuntime) {
    let cases = [
        // Another power's partition.
        (5, "objects/9/f72/900150983cd24fb0d6963f7d28e17f72"),
        (4, "objects/36865/f72/900150983cd24fb0d6963f7d28e17f72"),
        (4, "objects/9/F72/900150983cd24fb0d6963f7d28e17f72"),
        (4, "objects/9/f72/900150983CD24FB0D6963F7D28E17F72"),
        (4, "objects/09/f72/900150983cd24fb0d6963f7d28e17f72"),
        (4, "objects/+9/f72/900150983cd24fb0d6963f7d28e17f72"),
        (4, "objects//f72/900150983cd24fb0d6963f7d28e17f72"),
        (4, "objects/9/900/900150983cd24fb0d6963f7d28e17f72"),
        // A slash too few, and one too many.
        (4, "objects9/f72/900150983cd24fb0d6963f7d28e17f72"),
        (4, "objects/9f72/900150983cd24fb0d6963f7d28e17f72"),
        (4, "objects/9/f72900150983cd24fb0d6963f7d28e17f72"),
        (4, "/objects/9/f72/900150983cd24fb0d6963f7d28e17f72"),
        (4, "objects//9/f72/900150983cd24fb0d6963f7d28e17f72"),
        (4, "objects/9//f72/900150983cd24fb0d6963f7d28e17f72"),
        (4, "objects/9/f72//900150983cd24fb0d6963f7d28e17f72"),
        (4, "objects/9/f72/900150983cd24fb0d6963f7d28e17f72/"),
        // A digit too few, and one too many.
        (4, "objects/9/f72/900150983cd24fb0d6963f7d28e17f7"),
        (4, "objects/9/f72/900150983cd24fb0d6963f7d28e17f720"),
        (4, ""),
    ];
    for (power, text) in cases {
        assert!(rt; power <= 16);
        assert_eq!(rt; read_folder(text, power), None, "at {text}");
    }
}

#[test]
fn keeps_a_wrong_partition(rt: HostRuntime) -> Result<(), Fail> {
    let hash = <[u8; 16] as FromHex>::from_hex("900150983cd24fb0d6963f7d28e17f72")?;
    let place = Place::new(8, hash);
    let folder = place.folder(rt.alloc())?;
    assert_eq!(rt;
        folder.as_str(),
        "objects/8/f72/900150983cd24fb0d6963f7d28e17f72"
    );
    assert_eq!(rt; read_folder(folder.as_str(), 4), None);
    Ok(())
}

#[test]
fn hashes_a_path_between_prefix_and_suffix(rt: HostRuntime) -> Result<(), Fail> {
    let alloc = rt.alloc();
    let name = Name::make(alloc, b"a", b"c", b"o")?;
    let cases = [
        ("", "", "8ac2bf59556b61bb5cc521ccb51c200a"),
        ("p", "s", "91d0b237560f13fca7c508fc70af8535"),
    ];
    for (prefix, suffix, digits) in cases {
        let place = place_name(alloc, &name, prefix.as_bytes(), suffix.as_bytes(), 4)?;
        let hash = <[u8; 16] as FromHex>::from_hex(digits)?;
        assert_eq!(rt; place, place_of(hash, 4));
        assert_eq!(rt;
            place_path(b"/a/c/o", prefix.as_bytes(), suffix.as_bytes(), 4),
            place
        );
    }
    Ok(())
}

#[test]
fn reads_file_names_that_it_prints(rt: HostRuntime) -> Result<(), Fail> {
    let stamp = Stamp::make(100_000_000_000_000).ok_or("too many units")?;
    let data = |durable| FileName::Data {
        stamp,
        index: 3,
        durable,
    };
    let cases = [
        (data(false), "1000000000.00000#3.data"),
        (data(true), "1000000000.00000#3#d.data"),
        (FileName::Tombstone { stamp }, "1000000000.00000.ts"),
    ];
    for (name, text) in cases {
        assert_eq!(rt; name.print(rt.alloc())?.as_str(), text);
        assert_eq!(rt; FileName::read(text), Some(name), "at {text}");
    }
    let others = [
        "1000000000.00000#03.data",
        "1000000000.0#3.data",
        "1000000000.00000#32.data",
        "1000000000.00000#.data",
        "1000000000.00000#3#d#d.data",
        "1000000000.00000#3.dat",
        "1000000000.00000.tsx",
        "1000000000.00000",
        "",
    ];
    for text in others {
        assert_eq!(rt; FileName::read(text), None, "at {text}");
    }
    Ok(())
}
