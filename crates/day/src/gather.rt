// Records that were read or logged, for the swap file's writer.
use crate::filled::Filled;
use std::io;
use swap::Kind;
use swap_list::RecordList;
use tool::Contents;

// A list of records, and the two arrays that it is kept in.
#[derive(Clone, Copy)]
pub(crate) struct Gathered {
    list: RecordList,
    heads: [u8; 40960],
    contents: [u8; 65536],
}

// A swap file.
pub(crate) type File = Filled<4096>;

impl Gathered {
    pub(crate) fn new() -> Gathered {
        Gathered {
            list: RecordList::new(),
            heads: [0; 40960],
            contents: [0; 65536],
        }
    }

    // One record more that was read from a card.
    pub(crate) fn with_read(self, ads: [u8; 6], tab: u8, kind: Kind, read: Contents) -> Gathered {
        self.with(ads, tab, kind, octets::part(&read.octets, 0, read.length.0))
    }

    // One record more, in its place; none where the file could not take it.
    pub(crate) fn with(self, ads: [u8; 6], tab: u8, kind: Kind, data: &[u8]) -> Gathered {
        let mut heads = self.heads;
        let mut contents = self.contents;
        let added = self
            .list
            .add(&mut heads, &mut contents, ads, tab, kind, data);
        let Ok(list) = added else {
            return self;
        };
        Gathered {
            list,
            heads,
            contents,
        }
    }

    // The file of these records; none where they make a faulty one. A record's head has ten octets.
    pub(crate) fn written(self, rt: &impl Print) -> io::Result<File> {
        let mut array = [0u8; 4096];
        let written = swap_write::write(
            octets::part(&self.heads, 0, self.list.records.0.saturating_mul(10)),
            octets::part(&self.contents, 0, self.list.octets.0),
            &mut array,
        );
        let Ok(length) = written else {
            println!(rt; "the swap file is refused")?;
            return Ok(Filled { array, length: 0 });
        };
        Ok(Filled {
            array,
            length: length.0,
        })
    }
}
