use cpu_model::instruction::{DecodeFault, Instr, Page, Tail};
use cpu_table::spell;

const LDY_80: Instr = Instr {
    page: Page::Ten,
    opcode: 0x8E,
    post: None,
    tail: Tail::Word(80),
};

const TFR_A_B: Instr = Instr {
    page: Page::Base,
    opcode: 0x1F,
    post: None,
    tail: Tail::Byte(0x89),
};

#[test]
fn decode(rt: HostRuntime) {
    let rows: [(&[u8], Result<(Instr, u8), DecodeFault>); 7] = [
        (&[0x10, 0x8E, 0x00, 0x50], Ok((LDY_80, 4))),
        (&[0x1F, 0x89], Ok((TFR_A_B, 2))),
        (&[0x10], Err(DecodeFault::Short)),
        (&[0x87], Err(DecodeFault::NotDocumented)),
        (&[0xA6, 0x90], Err(DecodeFault::NotDocumented)),
        (&[0xA6, 0x8F], Err(DecodeFault::NotDocumented)),
        (&[0x1F, 0x81], Err(DecodeFault::NotDocumented)),
    ];
    for (bytes, read) in rows {
        assert_eq!(rt; cpu_table::decode(bytes), read);
    }
    let spelled = spell(&LDY_80);
    let bytes = spelled.bytes;
    assert_eq!(rt; (bytes, spelled.len), ([0x10, 0x8E, 0x00, 0x50, 0x00], 4));
}
