//! The first page of an instance, as it begins.

ghost use Rattle.std.specs.Prelude.{◌≡◌, ◌+◌, ◌*◌, ◌<◌, ◌≤◌, ◌^◌, ◌++◌, length, take, drop};
ghost use Rattle.std.specs.List.{AllByRecursion};
ghost use Rattle.qw_linear.specs.Memory.{AreOctets, page, with_number, SameBelow};
ghost use Rattle.qw_map.specs.Layout.{HasEntry, IsFresh};
ghost use Rattle.qw_map.specs.Layout as layout;
ghost use Rattle.qw_bench.specs.FirstPage.{HasAddresses, IsBlank};
ghost use Rattle.qw_bench.specs.Inner.Entries.{AreEntries, SameOutside};

use qw_linear::linear::{Linear, PAGE};
use qw_map::layout::{
    ENTRY_NULLS_OFFSET, ENTRY_OCTETS_OFFSET, ENTRY_ROWS_OFFSET, ENTRY_SIZE, FREE_OFFSET, HEAD_SIZE,
    Layout, PAGE_END_OFFSET, Placed, Used,
};
use qw_types::Ty;

/// Writes the descriptor of a layout into a blank page: where its columns stand, and the octets of its
/// texts. The rest of the page stays zeros.
pub fn begin_page(memory: &mut Linear, descriptor: u32, layout: &Layout, placed: &[Placed])
    requires many { length placed.now ≡ length layout.now.columns }
    requires addresses { AllByRecursion HasAddresses placed.now }
    requires end { descriptor + page < 2 ^ 32 }
    requires inside { descriptor + page ≤ length memory.old.octets }
    requires blank { IsBlank memory.old.octets descriptor }
    ensures fresh { IsFresh memory.new.octets descriptor layout.now placed.now }
    ensures below { SameBelow memory.old.octets memory.new.octets descriptor }
    ensures octets { AreOctets memory.old.octets → AreOctets memory.new.octets }
    ensures len { length memory.new.octets ≡ length memory.old.octets }
    ensures reserved { memory.new.reserved ≡ memory.old.reserved }
{
    let columns = layout.columns();
    let entries = descriptor + HEAD_SIZE;
    let texts = entries + ENTRY_SIZE * columns.len() as u32;
    put(
        memory,
        descriptor + FREE_OFFSET,
        descriptor + layout.descriptor_size(),
    );
    put(
        memory,
        descriptor + PAGE_END_OFFSET,
        descriptor + PAGE as u32,
    );
    write_entries(memory, entries, columns, placed);
    copy(memory, texts, layout.literals());
}

/// Writes what the descriptor says of columns, from the first one's entry on.
fn write_entries(memory: &mut Linear, entries: u32, columns: &[Used], placed: &[Placed])
    requires many { length placed.now ≡ length columns.now }
    requires addresses { AllByRecursion HasAddresses placed.now }
    requires small { entries + 16 * length columns.now < 2 ^ 32 }
    requires inside { entries + 16 * length columns.now ≤ length memory.old.octets }
    ensures entries { AreEntries memory.new.octets entries columns.now placed.now }
    ensures outside { SameOutside memory.old.octets memory.new.octets entries (16 * length columns.now) }
    ensures octets { AreOctets memory.old.octets → AreOctets memory.new.octets }
    ensures len { length memory.new.octets ≡ length memory.old.octets }
    ensures reserved { memory.new.reserved ≡ memory.old.reserved }
{
    for (index, used) in columns.iter().enumerate() {
        let entry = entries + ENTRY_SIZE * index as u32;
        write_entry(memory, entry, used, &placed[index]);
    }
}

/// Writes what the descriptor says of a column.
fn write_entry(memory: &mut Linear, entry: u32, used: &Used, placed: &Placed)
    requires addresses { HasAddresses placed.now }
    requires small { entry + 16 < 2 ^ 32 }
    requires inside { entry + 16 ≤ length memory.old.octets }
    ensures entry { HasEntry memory.new.octets entry used.now placed.now }
    ensures outside { SameOutside memory.old.octets memory.new.octets entry 16 }
    ensures octets { AreOctets memory.old.octets → AreOctets memory.new.octets }
    ensures len { length memory.new.octets ≡ length memory.old.octets }
    ensures reserved { memory.new.reserved ≡ memory.old.reserved }
{
    let nulls = if used.not_null { 0 } else { placed.nulls };
    let octets = if is_text(used.ty) { placed.octets } else { 0 };
    put(memory, entry, placed.values as u32);
    put(memory, entry + ENTRY_NULLS_OFFSET, nulls as u32);
    put(memory, entry + ENTRY_OCTETS_OFFSET, octets as u32);
    put(memory, entry + ENTRY_ROWS_OFFSET, placed.rows as u32);
}

/// Whether a type's values are texts.
fn is_text(ty: Ty) -> bool
    ensures { result ≡ layout.is_text ty }
{
    matches!(ty, Ty::Varchar { .. })
}

/// Stores a number of four octets.
fn put(memory: &mut Linear, address: u32, number: u32)
    requires { address + 4 ≤ length memory.old.octets }
    ensures stored { memory.new.octets ≡ with_number memory.old.octets address 4 number }
    ensures octets { AreOctets memory.old.octets → AreOctets memory.new.octets }
    ensures len { length memory.new.octets ≡ length memory.old.octets }
    ensures reserved { memory.new.reserved ≡ memory.old.reserved }
{
    memory
        .store32(u64::from(address), u64::from(number))
        .unwrap();
}

/// Stores octets one after another.
fn copy(memory: &mut Linear, address: u32, octets: &[u8])
    requires { address + length octets.now ≤ length memory.old.octets }
    ensures copied { memory.new.octets ≡ take address memory.old.octets ++ (octets.now ++ drop (address + length octets.now) memory.old.octets) }
    ensures octets { AreOctets memory.old.octets → AreOctets memory.new.octets }
    ensures len { length memory.new.octets ≡ length memory.old.octets }
    ensures reserved { memory.new.reserved ≡ memory.old.reserved }
{
    memory.copy_in(u64::from(address), octets).unwrap();
}
