// The four numbers of an event's line in one. That they fit (`Fits`) stands with each that reads one: a run's lent array has numbers, as C reads them.
#![tactic(auto, unfolding(crate::specs::Lines::packed))]

ghost use Rattle.std.specs.Prelude.{◌≡◌, ℕ};
ghost use Rattle.telling.specs.Lines.{packed, Fits};

// An answer, packets sent, packets in the air, and hops.
pub fn line(answer: u32, sent: u8, air: u8, hops: u8) -> u64
    ensures packed { result ≡ packed answer sent air hops }
    ensures fits { Fits answer sent air hops }
{
    let [a, b, c, d] = answer.to_le_bytes();
    u64::from_le_bytes([a, b, c, d, sent, air, hops, 0])
}

// Of such a number, the answer.
pub fn answer_of(line: u64) -> u32
    ensures { (answer sent air hops : ℕ) → Fits answer sent air hops → line ≡ packed answer sent air hops → result ≡ answer }
{
    (line % (1 << 32)) as u32
}

// The packets sent.
pub fn sent_of(line: u64) -> u8
    ensures { (answer sent air hops : ℕ) → Fits answer sent air hops → line ≡ packed answer sent air hops → result ≡ sent }
{
    line.to_le_bytes()[4]
}

// The packets in the air.
pub fn air_of(line: u64) -> u8
    ensures { (answer sent air hops : ℕ) → Fits answer sent air hops → line ≡ packed answer sent air hops → result ≡ air }
{
    line.to_le_bytes()[5]
}

// The hops.
pub fn hops_of(line: u64) -> u8
    ensures { (answer sent air hops : ℕ) → Fits answer sent air hops → line ≡ packed answer sent air hops → result ≡ hops }
{
    line.to_le_bytes()[6]
}
