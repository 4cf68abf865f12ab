//! Reading a page of a file, and writing a free one.
ghost use Rattle.std.specs.Prelude.{◌≡◌, ◌≢◌, ◌⊎◌, ◌↔◌, ◌+◌, ◌*◌, ◌-◌, ◌<◌, ◌≤◌, true, false};
ghost use Rattle.std.specs.Prelude.{length, Ok, Err, IfOk, IfErr, OnOk, IsErrOf};
ghost use Rattle.disk_trait.specs.File.{part};
ghost use Rattle.page_file.specs.DiskCalls.{IsLookedAt};
ghost use Rattle.page_file.specs.Index.{is_free, with_taken};
ghost use Rattle.page_file.specs.Pages.{page};
ghost use Rattle.page_file.specs.Putting.{IsPagePut, failed_in};
ghost use Rattle.page_file.specs.declared.error.PageError.TheVariants.{Memory, PageNumber, NoPage};
ghost use Rattle.page_file.specs.declared.error.PageError.TheVariants.{ReadFailed, WriteFailed};

use crate::error::PageError;
use crate::gaps::{has_page, take_page};
use crate::pages::Pages;
use disk_trait::{Disk, DiskError};
use fixed_numbers::sizes::PAGE_SIZE;

/// Reads the bytes of a page. Refused with 41 where the file hasn't the whole page, and 50 where
/// the device failed.
fn read_page<D: Disk>(disk: &mut D, number: u32, bytes: &mut [u8]) -> Result<(), PageError>
    requires size { length bytes.old ≡ PAGE_SIZE }
    ensures read { D.tells disk.old
        → OnOk result (bytes.new
        ≡ part (D.content disk.old) (PAGE_SIZE * number) (length bytes.old)) }
    ensures no_page { D.tells disk.old → (IsErrOf result NoPage
        ↔ (length (D.content disk.old) < PAGE_SIZE * number + PAGE_SIZE)) }
    ensures looks { IsLookedAt D.DiskFacts (failed_in result) 0 disk.old disk.new }
    ensures refused { IfErr result (λ e. (e ≡ NoPage) ⊎ (e ≡ ReadFailed)) }
{
    match disk.read_at(PAGE_SIZE as u64 * u64::from(number), bytes) {
        Ok(()) => Ok(()),
        Err(DiskError::PastEnd) => Err(PageError::NoPage),
        Err(_) => Err(PageError::ReadFailed),
    }
}

/// Writes the bytes of a page. Refused with 41 where it would begin past the end of the file, and
/// 51 where the device failed.
fn write_page<D: Disk>(disk: &mut D, page: u32, bytes: &[u8; PAGE_SIZE]) -> Result<(), PageError>
    ensures puts { IsPagePut D.DiskFacts result page bytes.now disk.old disk.new }
    ensures refused { IfErr result (λ e. (e ≡ NoPage) ⊎ (e ≡ WriteFailed)) }
{
    match disk.write_at(PAGE_SIZE as u64 * u64::from(page), bytes) {
        Ok(()) => Ok(()),
        Err(DiskError::PastEnd) => Err(PageError::NoPage),
        Err(_) => Err(PageError::WriteFailed),
    }
}

impl Pages {
    /// Takes a free page for the next root.
    fn take(&mut self, page: u32)
        requires free { is_free page self.old ≡ true }
        requires room { 0 < self.old.room }
        ensures { self.new ≡ with_taken page self.old }
    {
        // Whether it was free is known: the contract requires it.
        let _was_free = take_page(&mut self.gaps, u64::from(page));
        self.taken.push_reserved(page);
        self.room -= 1;
    }

    /// Whether a page is free.
    fn is_free(&self, page: u32) -> bool
        ensures { result ≡ is_free page self.now }
    {
        has_page(&self.gaps, u64::from(page))
    }

    /// The bytes of a page of a file. Takes 4,096 bytes of memory, and makes one device call.
    ///
    /// Refuses with 40 where the page is a root slot, without that call; with 41 exactly where the
    /// file hasn't the whole page; with 50 where the device failed; and with 1 when out of memory.
    pub fn page<D: Disk>(&self, disk: &mut D, number: u32) -> Result<Vec<u8>, PageError>
        ensures number { number < 2 → (result ≡ Err PageNumber) × (disk.new ≡ disk.old) }
        ensures whole { IfOk result (λ bytes. length bytes.items ≡ PAGE_SIZE) }
        ensures read { D.tells disk.old
            → IfOk result (λ bytes. bytes.items ≡ page number (D.content disk.old)) }
        ensures no_page { 2 ≤ number → D.tells disk.old → (IsErrOf result NoPage
            ↔ (length (D.content disk.old) < PAGE_SIZE * number + PAGE_SIZE)) }
        ensures refused { 2 ≤ number
            → IfErr result (λ e. (e ≡ Memory) ⊎ ((e ≡ NoPage) ⊎ (e ≡ ReadFailed))) }
        ensures looks { IsLookedAt D.DiskFacts (failed_in result) 0 disk.old disk.new }
    {
        if number < 2 {
            return Err(PageError::PageNumber);
        }
        let mut bytes = [0; PAGE_SIZE];
        read_page(disk, number, &mut bytes)?;
        let page = Vec::from_slice(*self.taken.allocator(), &bytes)?;
        Ok(page)
    }

    /// Writes a free page, and takes it for the next root: the live ones are never written. Takes
    /// no memory, and a few steps for each range of free pages below it.
    ///
    /// Refuses with 40 where the page is a root slot, live or taken, without a device call, and
    /// with 41 where its write would begin past the end of the file: both change nothing. Refuses
    /// with 51 where the device failed: then the page may be torn, and is taken too.
    pub fn put_free<D: Disk>(
        &mut self,
        disk: &mut D,
        page: u32,
        bytes: &[u8; PAGE_SIZE],
    ) -> Result<(), PageError>
        requires room { 0 < self.old.room }
        ensures not_free { is_free page self.old ≡ false
            → (result ≡ Err PageNumber) × (self.new ≡ self.old) × (disk.new ≡ disk.old) }
        ensures puts { is_free page self.old ≡ true
            → IsPagePut D.DiskFacts result page bytes.now disk.old disk.new }
        ensures taken { is_free page self.old ≡ true → result ≢ Err NoPage
            → self.new ≡ with_taken page self.old }
        ensures same { result ≡ Err NoPage → self.new ≡ self.old }
        ensures refused { is_free page self.old ≡ true
            → IfErr result (λ e. (e ≡ NoPage) ⊎ (e ≡ WriteFailed)) }
    {
        if !self.is_free(page) {
            return Err(PageError::PageNumber);
        }
        match write_page(disk, page, bytes) {
            Ok(()) => {
                self.take(page);
                Ok(())
            }
            Err(PageError::NoPage) => Err(PageError::NoPage),
            Err(error) => {
                self.take(page);
                Err(error)
            }
        }
    }
}
