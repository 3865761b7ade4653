//! Entries of the two tables of an ELF file.

/// An entry of the program header table (System V ABI, chapter 5, `Elf32_Phdr`), without its alignment.
#[derive(Clone, Copy, PartialEq, Eq)]
pub struct ProgramHeader {
    pub p_type: u32,
    pub p_offset: u32,
    pub p_vaddr: u32,
    pub p_paddr: u32,
    pub p_filesz: u32,
    pub p_memsz: u32,
    pub p_flags: u32,
}

/// What is read of an entry of the section header table (System V ABI, chapter 4, `Elf32_Shdr`).
#[derive(Clone, Copy, PartialEq, Eq)]
pub struct SectionHeader {
    pub sh_type: u32,
    pub sh_flags: u32,
    pub sh_addr: u32,
    pub sh_offset: u32,
    pub sh_size: u32,
    pub sh_link: u32,
}
