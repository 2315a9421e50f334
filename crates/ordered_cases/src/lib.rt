//! The ordered list at two kinds of records, on cases worked out by hand.
#![tactic(auto)]

use ordered::Sequenced;

/// A packet header of a PPM segment: the segment's index, and where the bytes lie.
#[derive(Clone, Copy)]
pub struct PpmPacket {
    pub zppm: u8,
    pub place: usize,
    pub length: u32,
}

impl Sequenced for PpmPacket {
    ghost sequence = { λ p. p.zppm };

    fn sequence_idx(&self) -> u16 {
        u16::from(self.zppm)
    }
}

/// The packet headers of a PPT segment: its index, the tile-part it stands in, and where the bytes lie.
#[derive(Clone, Copy)]
pub struct PptHeader {
    pub zppt: u8,
    pub part: u16,
    pub place: usize,
    pub length: u32,
}

impl Sequenced for PptHeader {
    ghost sequence = { λ h. h.zppt };

    fn sequence_idx(&self) -> u16 {
        u16::from(self.zppt)
    }
}

#[cfg(test)]
mod tests {
    use super::*;
    use ordered::{Full, OrderedList, fill_ordered, insert_ordered};
    use std::test::Fail;

    const NO_PACKET: PpmPacket = PpmPacket {
        zppm: 255,
        place: 0,
        length: 0,
    };

    const NO_HEADER: PptHeader = PptHeader {
        zppt: 255,
        part: 0,
        place: 0,
        length: 0,
    };

    fn packet(zppm: u8, place: usize) -> PpmPacket {
        PpmPacket {
            zppm,
            place,
            length: 8,
        }
    }

    fn header(zppt: u8, place: usize) -> PptHeader {
        PptHeader {
            zppt,
            part: 3,
            place,
            length: 8,
        }
    }

    // 2, 1, 2, 1, 0 by index: those of one index stand as they came.
    #[test]
    fn equal_indices_keep_arrival_order(rt: HostRuntime) -> Result<(), Fail> {
        let mut rows = [NO_PACKET; 6];
        let mut list = OrderedList::new(&mut rows);
        for (zppm, place) in [(2, 10), (1, 20), (2, 30), (1, 40), (0, 50)] {
            list.insert(packet(zppm, place))?;
        }
        assert_eq!(rt; list.len(), 5);
        assert_eq!(rt; list.room(), 1);
        assert!(rt; list.get(5).is_none());
        let places = [50, 20, 40, 10, 30];
        for (k, place) in places.iter().enumerate() {
            let found = list.get(k).ok_or("no row")?;
            assert_eq!(rt; found.place, *place);
        }
        assert_eq!(rt; rows[5].zppm, 255);
        Ok(())
    }

    #[test]
    fn full_list_refuses(rt: HostRuntime) -> Result<(), Fail> {
        let mut rows = [NO_HEADER; 2];
        let mut list = OrderedList::new(&mut rows);
        list.insert(header(7, 10))?;
        list.insert(header(4, 20))?;
        assert_eq!(rt; list.insert(header(0, 30)), Err(Full));
        assert_eq!(rt; list.len(), 2);
        assert_eq!(rt; list.room(), 0);
        assert_eq!(rt; rows[0].place, 20);
        assert_eq!(rt; rows[1].place, 10);
        Ok(())
    }

    #[test]
    fn empty_list(rt: HostRuntime) {
        let mut rows = [NO_HEADER; 2];
        let list = OrderedList::new(&mut rows);
        assert!(rt; list.is_empty());
        assert_eq!(rt; list.room(), 2);
        assert!(rt; list.get(0).is_none());
        let mut none: [PptHeader; 0] = [];
        assert_eq!(rt; insert_ordered(&mut none, 0, header(1, 10)), Err(Full));
    }

    #[test]
    fn descending_arrivals(rt: HostRuntime) {
        let mut rows = [NO_PACKET; 4];
        let records = [packet(9, 10), packet(5, 20), packet(0, 30)];
        assert_eq!(rt; fill_ordered(&mut rows, &records), Ok(3));
        assert_eq!(rt; rows[0].place, 30);
        assert_eq!(rt; rows[1].place, 20);
        assert_eq!(rt; rows[2].place, 10);
        assert_eq!(rt; rows[3].zppm, 255);
    }

    // Two calls, the count kept between them; three records for two rows are refused whole.
    #[test]
    fn resumed_and_refused(rt: HostRuntime) -> Result<(), Fail> {
        let mut rows = [NO_HEADER; 3];
        let count = insert_ordered(&mut rows, 0, header(6, 10))?;
        let mut list = OrderedList::resume(&mut rows, count);
        let three = [header(2, 20), header(2, 30), header(8, 40)];
        assert_eq!(rt; list.insert_all(&three), Err(Full));
        assert_eq!(rt; list.len(), 1);
        list.insert_all(&[header(6, 20), header(2, 30)])?;
        assert_eq!(rt; list.len(), 3);
        assert_eq!(rt; rows[0].place, 30);
        assert_eq!(rt; rows[1].place, 10);
        assert_eq!(rt; rows[2].place, 20);
        Ok(())
    }
}
