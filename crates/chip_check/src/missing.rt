//! Instructions that other machines and assemblers have, but this machine doesn't.

use crate::words::is_one_of;

/// Lines of help that state what to write instead of a missing instruction. Each comes with the
/// words that other assemblers use for that instruction.
const MISSING: &[(&str, &[&str])] = &[
    (
        "no instruction scrolls up; SCD, SCR and SCL scroll down, right and left",
        &["SCU", "SCUP"],
    ),
    (
        "write a jump on a condition as two lines: SE or SNE, and the JP that it may skip",
        &[
            "JZ", "JNZ", "JE", "JNE", "JEQ", "JC", "JNC", "BEQ", "BNE", "BZ", "BNZ", "BEQZ",
            "BNEZ", "BCC", "BCS", "BMI", "BPL", "DJNZ",
        ],
    ),
    (
        "no instruction tells which value is less; write SUB V0, V1, then SNE VF, 0, which skips the JP below it unless V0 was less than V1 (with SUBN, unless V0 was greater)",
        &[
            "JG", "JL", "JGE", "JLE", "JGT", "JLT", "JA", "JB", "JAE", "JBE", "BGT", "BLT", "BGE",
            "BLE", "BHI", "BHS", "BLO", "BLS", "BGTU", "BLTU", "BGEU", "BLEU",
        ],
    ),
    (
        "no instruction tells which value is less; write SUB V0, V1, then SE VF, 0, which skips the next line if V0 was less than V1 (with SUBN, if V0 was greater)",
        &[
            "SGT", "SLT", "SGE", "SLE", "SGTU", "SLTU", "SLTI", "SKGT", "SKLT", "SKGE", "SKLE",
        ],
    ),
    (
        "SE skips the next line if two values are equal, and SNE if they differ",
        &["CMP", "CP", "CPI", "TEST", "TST"],
    ),
    (
        "no instruction multiplies or divides; repeat ADD or SUB, or shift: SHL doubles and SHR halves",
        &["MUL", "MULT", "IMUL", "DIV", "IDIV", "MOD"],
    ),
    (
        "the machine has no stack for data, only for CALL and RET; LD [I], Vx keeps V0 to Vx in memory",
        &["PUSH", "POP", "PHA", "PLA"],
    ),
    (
        "write a loop as a label and a JP back to it",
        &["LOOP", "AGAIN", "WHILE", "REPEAT", "UNTIL", "FOR"],
    ),
    (
        "no load or store takes an address; LD I sets the address, LD [I], V0 stores V0 there, and LD V0, [I] loads it",
        &["STA", "STX", "STY", "LDA", "LDX", "LDY"],
    ),
    (
        "the machine has sprites of the digits: LD F, Vx points I to the sprite of the digit in Vx",
        &["FONT"],
    ),
    (
        "LD Vx, K waits for a key; SKP Vx and SKNP Vx test whether the key in Vx is down",
        &["KEY", "KEYS", "INPUT"],
    ),
    ("this assembler has no macros", &["MACRO", "ENDM"]),
    (
        "no directive repeats lines; write them out, or write a loop as a label and a JP back to it",
        &["REPT", "ENDR", "ENDREPT", "DUP", "EDUP", "TIMES"],
    ),
    (
        "the machine is a SUPER-CHIP 1.1, which has no instructions of XO-CHIP",
        &["PLANE", "AUDIO", "PITCH"],
    ),
    (
        "no instruction waits for a time: LD DT, V0 sets the delay timer, and a loop reads it by LD V0, DT until it is 0",
        &["WAIT", "SLEEP", "PAUSE"],
    ),
    (
        "no instruction rotates; SHL and SHR shift, and put the bit that falls out into VF",
        &["ROL", "ROR", "RLC", "RRC", "RL", "RR"],
    ),
    (
        "the machine has no NOP; LD V0, V0 changes nothing",
        &["NOP"],
    ),
];

/// The line of help for a missing instruction, given by its word in upper case; nothing for other words.
pub(crate) fn missing_word(word: &[u8]) -> Option<&'static str> {
    for (sentence, others) in MISSING {
        if is_one_of(word, *others) {
            return Some(*sentence);
        }
    }
    None
}
