//! What holds of every access.

ghost use Rattle.std.specs.Prelude.{ℕ};
ghost use Rattle.hart_words.specs.declared.privilege.Mode.{Mode};
ghost use Rattle.hart_words.specs.declared.map.Map.{Map};
ghost use Rattle.hart_words.specs.declared.choices.Choices.{Choices};
ghost use Rattle.hart_words.specs.Memory.{Bytes};
ghost use Rattle.csr_file.specs.declared.csrs.Csrs.{Csrs};
ghost use Rattle.mem_access.specs.declared.place.AccessRequest.{AccessRequest};
ghost use Rattle.mem_access.specs.declared.place.Atomicity.{Atomicity};
ghost use Rattle.mem_access.specs.Laws.{FetchIsPermitted, FetchIsPhysical, FetchSetsAlone, LoadIsPermitted, LoadIsPhysical, LoadSetsAlone, PlaceIsMapped, PlacesAreMapped, StoreIsPermitted, StoreIsPhysical, StoreSetsAlone};

/// All that fetching, loading, and looking for the places of a store write is entries of page
/// tables, each 8 aligned bytes of RAM that S may load and store, and each as it was but that A, or
/// A and D, are set. Where A and D that are clear are page faults nothing is written.
pub fn accesses_write_entries_alone()
    ensures fetch { (csrs : Csrs) (map : Map) (choices : Choices) (mode : Mode) (pc : ℕ)
        (bytes : Bytes) → FetchSetsAlone csrs map choices mode pc bytes }
    ensures load { (csrs : Csrs) (map : Map) (choices : Choices) (mode : Mode) (va len : ℕ)
        (atomicity : Atomicity) (bytes : Bytes)
        → LoadSetsAlone csrs map choices mode va len atomicity bytes }
    ensures store { (csrs : Csrs) (map : Map) (choices : Choices) (mode : Mode) (va len : ℕ)
        (atomicity : Atomicity) (bytes : Bytes)
        → StoreSetsAlone csrs map choices mode va len atomicity bytes }
{}

/// The reads of an access are, in order, those of its walk, which are the entries of the address's
/// chain that S may load, and then its own bytes at the place that the chain gives. A fetch reads
/// so for each parcel. A load or a store of two parts has two walks, the second where the first
/// part has its place; a load reads its own bytes when all parts have their places. A store's
/// places need the walks alone; a device's bytes are not read. Each walk sees what those before it
/// set. Each read is of RAM, and protection grants it to the mode that makes it. An access that has
/// its places has those that are found so, and protection grants each part its own bytes. SC and
/// the AMOs are stores; data under MPRV are accessed in mode MPP.
pub fn accesses_are_permitted()
    ensures fetch { (csrs : Csrs) (map : Map) (choices : Choices) (mode : Mode) (pc : ℕ)
        (bytes : Bytes) → FetchIsPermitted csrs map choices mode pc bytes }
    ensures load { (csrs : Csrs) (map : Map) (choices : Choices) (mode : Mode) (va len : ℕ)
        (atomicity : Atomicity) (bytes : Bytes)
        → LoadIsPermitted csrs map choices mode va len atomicity bytes }
    ensures store { (csrs : Csrs) (map : Map) (choices : Choices) (mode : Mode) (va len : ℕ)
        (atomicity : Atomicity) (bytes : Bytes)
        → StoreIsPermitted csrs map choices mode va len atomicity bytes }
{}

/// Where the access's mode is M or satp's MODE is Bare, the physical address of each part is its
/// virtual one, and no entry of a page table is read or set.
pub fn untranslated_addresses_are_physical()
    ensures fetch { (csrs : Csrs) (map : Map) (choices : Choices) (mode : Mode) (pc : ℕ)
        (bytes : Bytes) → FetchIsPhysical csrs map choices mode pc bytes }
    ensures load { (csrs : Csrs) (map : Map) (choices : Choices) (mode : Mode) (va len : ℕ)
        (atomicity : Atomicity) (bytes : Bytes)
        → LoadIsPhysical csrs map choices mode va len atomicity bytes }
    ensures store { (csrs : Csrs) (map : Map) (choices : Choices) (mode : Mode) (va len : ℕ)
        (atomicity : Atomicity) (bytes : Bytes)
        → StoreIsPhysical csrs map choices mode va len atomicity bytes }
{}

/// Each byte of a translated access is where a leaf of its virtual address puts it: the leaf is in
/// the chain of that address from the table that satp names, its flags allow the access, A and for
/// a store D are set or can be set, and its page number joined with the address's offset is the
/// physical address. So it is for each byte of each part, in memory as the access finds it.
pub fn translated_places_are_mapped()
    ensures one { (csrs : Csrs) (map : Map) (choices : Choices) (request : AccessRequest) (va : ℕ)
        (bytes : Bytes) → PlaceIsMapped csrs map choices request va bytes }
    ensures parts { (csrs : Csrs) (map : Map) (choices : Choices) (request : AccessRequest)
        (atomicity : Atomicity) (va : ℕ) (bytes : Bytes)
        → PlacesAreMapped csrs map choices request atomicity va bytes }
{}
